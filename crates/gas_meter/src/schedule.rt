/// What each step costs. A number is the whole cost of one step, unless its line says otherwise.
#[derive(Clone, Copy, Debug, PartialEq, Eq)]
pub struct Schedule {
    /// Each instruction that no other field speaks of.
    pub plain: u64,
    /// `else` and `end`.
    pub marker: u64,
    /// Each load and store.
    pub memory: u64,
    /// Each division and remainder.
    pub divide: u64,
    /// `br_table`.
    pub table_jump: u64,
    /// `call`, to which 1 for each declared local of a called function is added.
    pub call: u64,
    /// `call_indirect`, with the same addition.
    pub call_indirect: u64,
    /// `memory.grow`.
    pub grow: u64,
    /// Each page by which a memory grows.
    pub grow_page: u64,
    /// Each message of a transaction or a contract.
    pub message: u64,
    /// Each coin of a send, a burn or the funds of a call.
    pub coin: u64,
    /// Storing a code.
    pub store_code: u64,
    /// Each byte of a code that is stored.
    pub store_code_byte: u64,
    /// Entering a contract whose code isn't pinned.
    pub entry: u64,
    /// Entering a contract whose code is pinned.
    pub entry_pinned: u64,
    /// Each query.
    pub query: u64,
    /// Reading a key, without the bytes.
    pub db_read: u64,
    /// Writing a key, without the bytes.
    pub db_write: u64,
    /// Removing a key.
    pub db_remove: u64,
    /// Opening a scan, without the bytes of its bounds.
    pub db_scan: u64,
    /// Each entry that a scan gives, without the bytes.
    pub db_next: u64,
    /// Each import on addresses.
    pub address: u64,
    /// `debug`, without the bytes.
    pub debug: u64,
}

impl Schedule {
    ghost use Rattle.std.specs.Prelude.{◌≡◌};
    ghost use Rattle.gas_meter.specs.Costs.{standard_schedule, cost};
    ghost use Rattle.gas_meter.specs.Ranges.{IsInRange};

    pub fn standard() -> Schedule
        ensures numbers { result ≡ standard_schedule }
        ensures in_range { IsInRange result }
    {
        Schedule {
            plain: 1,
            marker: 0,
            memory: 2,
            divide: 4,
            table_jump: 2,
            call: 10,
            call_indirect: 15,
            grow: 10,
            grow_page: 1_000,
            message: 1_000,
            coin: 100,
            store_code: 10_000,
            store_code_byte: 3,
            entry: 60_000,
            entry_pinned: 5_000,
            query: 1_000,
            db_read: 1_000,
            db_write: 2_000,
            db_remove: 1_000,
            db_scan: 1_000,
            db_next: 30,
            address: 500,
            debug: 10,
        }
    }

    /// What the instruction with this opcode costs, without what is added for declared locals and
    /// for pages. Opcodes are those of the binary format of WebAssembly core 1.0.
    pub fn cost(&self, op: u8) -> u64
        ensures { result ≡ cost self.now op }
    {
        match op {
            0x05 | 0x0B => self.marker,
            0x0E => self.table_jump,
            0x10 => self.call,
            0x11 => self.call_indirect,
            0x28..=0x3E => self.memory,
            0x40 => self.grow,
            0x6D..=0x70 | 0x7F..=0x82 => self.divide,
            _ => self.plain,
        }
    }
}
