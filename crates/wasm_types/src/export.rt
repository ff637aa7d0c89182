/// What is exported, by its index among all of its sort, the imported ones first.
#[derive(Clone, Copy, Debug, PartialEq, Eq)]
pub enum Ext {
    Func(u32),
    Table(u32),
    Memory(u32),
    Global(u32),
}

#[derive(Debug, Drop, PartialEq, Eq)]
pub struct Export {
    pub name: String,
    pub ext: Ext,
}
