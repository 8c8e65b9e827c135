// What a host does, as a text that is followed, apart from the memory, the folder and the streams that it is done on.
//
// - `specs/Text` has the texts: ranges of guest memory are read and written, the outside is asked, the host notes what it
//   keeps, and the text ends with an answer or a fault. `specs/Played` says what it is to follow one, to its end or to a
//   refusal; `specs/Outside` has the acts of memory over a port, of a folder, a source and a sink.
// - Laws of every text: one after another (`Laws`), over another port (`Ports`), over objects that tell what they hold,
//   where it is a function, `run` (`Runs`, `Told`), refused (`Shapes`, `Refusals`), whether it acted (`Acting`), what
//   never falls (`Causes`), which object a fault blames (`Blames`), over steady objects (`Steady`), and by which calls it
//   makes (`Streams`).
// - `specs/World` is what such a host finds: input, console, tree and open numbers, whose types stand here.
#![tactic(auto)]

mod open_numbers;

pub use open_numbers::{Open, OpenFile};
