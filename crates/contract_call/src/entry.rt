ghost use Rattle.std.specs.Prelude.{◌≡◌};
ghost use Rattle.contract_call.specs.Calls.{entry_name};

/// A function of a contract that the chain calls.
#[derive(Clone, Copy, Debug, PartialEq, Eq)]
pub enum Entry {
    Instantiate,
    Execute,
    Migrate,
    Sudo,
    Reply,
    Query,
}

/// The name under which a contract exports an entry point.
pub(crate) fn entry_name(entry: Entry) -> &'static str
    ensures { result.now ≡ entry_name entry }
{
    match entry {
        Entry::Instantiate => "instantiate",
        Entry::Execute => "execute",
        Entry::Migrate => "migrate",
        Entry::Sudo => "sudo",
        Entry::Reply => "reply",
        Entry::Query => "query",
    }
}
