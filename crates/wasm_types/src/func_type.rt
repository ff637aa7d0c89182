use crate::value::ValType;

/// What a function takes and gives.
#[derive(Debug, Drop, PartialEq, Eq)]
pub struct FuncType {
    pub params: Vec<ValType>,
    pub result: Option<ValType>,
}
