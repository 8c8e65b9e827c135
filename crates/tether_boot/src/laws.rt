// From the loaded memory to the program's first step, as laws of the definitions: each function does nothing, and its
// contract is the law.
ghost use Rattle.tether_boot.specs.Booting.{HartBegins, BootAgrees, BootIsUnbegun, BootStepsFollow};
ghost use Rattle.tether_boot.specs.Booting.{ImagesStand, LoadsStandInside};
ghost use Rattle.tether_boot.specs.Handing.{GivesBoot, ServesBoot};

/// What is loaded of a kernel and of a fitting image stands inside the areas.
pub fn loads_stand_inside()
    ensures { LoadsStandInside }
{}

/// Behind loading, memory holds the kernel, the image and its boot block.
pub fn images_stand()
    ensures { ImagesStand }
{}

/// Behind the write of the start word the first step of the hart leads to the kernel's first phase.
pub fn hart_begins()
    ensures { HartBegins }
{}

/// Each step of the hart goes on with the start, until the program runs beside the direct run.
pub fn boot_steps_follow()
    ensures { BootStepsFollow }
{}

/// Until the program runs nothing of it was done, and nothing is noted of it.
pub fn boot_is_unbegun()
    ensures { BootIsUnbegun }
{}

/// Where nothing of the program was done, first contents are those of the direct run at the session's place.
pub fn boot_agrees()
    ensures { BootAgrees }
{}

/// The part of a host turn on tohost, before the program runs: the main vars are written, or the port refuses.
pub fn serves_boot()
    ensures { ServesBoot }
{}

/// The part of a host turn on fromhost gives the answer to that call, or the port refuses.
pub fn gives_boot()
    ensures { GivesBoot }
{}
