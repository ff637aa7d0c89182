//! What follows from the definitions. The function here does nothing: its clause is a law.

ghost use Rattle.contract_admin.specs.Laws.{StayLawfulWithCode, StayLawful};

/// Where a code is stored, contracts stay lawful: each keeps the code that it has. So they do where neither
/// they nor their storage are changed, and no code is lost.
pub fn contracts_stay_lawful()
    ensures stored { StayLawfulWithCode }
    ensures same { StayLawful }
{}
