use coin_amounts::RawCoin;

/// What a contract may ask the chain to do, and a sender too.
#[derive(Debug, Drop)]
pub enum CosmosMsg {
    BankSend {
        to: String,
        amount: Vec<RawCoin>,
    },
    BankBurn {
        amount: Vec<RawCoin>,
    },
    Execute {
        contract: String,
        msg: Vec<u8>,
        funds: Vec<RawCoin>,
    },
    /// With a salt the new contract's address can be told beforehand.
    Instantiate {
        admin: Option<String>,
        code_id: u64,
        msg: Vec<u8>,
        funds: Vec<RawCoin>,
        label: String,
        salt: Option<Vec<u8>>,
    },
    Migrate {
        contract: String,
        new_code_id: u64,
        msg: Vec<u8>,
    },
    UpdateAdmin {
        contract: String,
        admin: String,
    },
    ClearAdmin {
        contract: String,
    },
    /// A message that the chain doesn't know.
    Other {
        kind: String,
    },
}

/// What a sender may ask in a transaction.
#[derive(Debug, Drop)]
pub enum TxMsg {
    Cosmos(CosmosMsg),
    StoreCode {
        code: Vec<u8>,
        /// Who may instantiate the code; everybody where there is no list.
        allow: Option<Vec<String>>,
    },
    Pin {
        ids: Vec<u64>,
    },
    Unpin {
        ids: Vec<u64>,
    },
    Sudo {
        contract: String,
        msg: Vec<u8>,
    },
}
