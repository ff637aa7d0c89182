//! Why an import on addresses gives no address.

ghost use Rattle.std.specs.Prelude.{◌≡◌};
ghost use Rattle.host_imports.specs.Refused.{refusal_text};

/// What a contract is told in place of an address.
#[derive(Clone, Copy, Debug, PartialEq, Eq)]
pub(crate) enum AddressRefusal {
    NotUtf8,
    BadAddress,
    /// The text of an address, but not in lower case.
    NotNormalized,
    /// No bytes.
    BadLength,
}

/// Why there is no address.
#[derive(Clone, Copy, Debug)]
pub(crate) enum AddressStop {
    Refused(AddressRefusal),
    NoMemory,
}

pub(crate) fn refusal_text(refusal: AddressRefusal) -> &'static str
    ensures { result.now ≡ refusal_text refusal }
{
    match refusal {
        AddressRefusal::NotUtf8 => "not utf8",
        AddressRefusal::BadAddress => "bad address",
        AddressRefusal::NotNormalized => "not normalized",
        AddressRefusal::BadLength => "bad length",
    }
}
