/// The sorts of what is imported and exported.
#[derive(Clone, Copy, Debug, PartialEq, Eq)]
pub enum Sort {
    Func,
    Table,
    Memory,
    Global,
}
