// Which call a request's number names.
ghost use Rattle.std.specs.Prelude.{◌≡◌};
ghost use Rattle.syscall_proxy.specs.CallTable.{service_of};

/// A call of the table.
#[derive(Clone, Copy)]
pub(crate) enum Service {
    MakeDir,
    Unlink,
    Truncate,
    Access,
    OpenAt,
    Close,
    Seek,
    Read,
    Write,
    ReadPlace,
    WritePlace,
    Stat,
    Exit,
    MainVars,
    Unknown,
}

/// The call of a number.
#[tactic(auto, unfolding(crate::specs::CallTable::service_of))]
pub(crate) fn service_for(number: u64) -> Service
    ensures { result ≡ service_of number }
{
    match number {
        34 => Service::MakeDir,
        35 => Service::Unlink,
        46 => Service::Truncate,
        48 => Service::Access,
        56 => Service::OpenAt,
        57 => Service::Close,
        62 => Service::Seek,
        63 => Service::Read,
        64 => Service::Write,
        67 => Service::ReadPlace,
        68 => Service::WritePlace,
        80 => Service::Stat,
        93 | 94 => Service::Exit,
        2011 => Service::MainVars,
        _ => Service::Unknown,
    }
}
