ghost use Rattle.std.specs.Prelude.{◌≡◌, ℕ, Some, IfSome, map, string_bytes};
ghost use Rattle.bench_words.specs.Words.{name_of, IsNumber, Asks};

/// A piece of the node's work.
#[derive(Clone, Copy, Debug, PartialEq, Eq)]
pub enum Kernel {
    BinaryAdd,
    BinaryDiv,
    Load1,
    Load2,
    Load4,
    Load8,
    Store8,
    Charge,
    ReadModule,
    RunModule,
    LayersNew,
    LayersGet,
    LayersNext,
    LayersKeep,
    PlainGet,
    PlainNext,
    RunsNew,
    RunsGet,
    RunsNext,
    RunsChange,
    RunsMerge,
}

impl Kernel {
    /// The kernel of this name.
    pub fn named(name: &str) -> Option<Kernel>
        ensures found { IfSome result (λ kernel. name_of kernel ≡ name.now) }
        ensures known { (kernel : Kernel) → name_of kernel ≡ name.now → result ≡ Some kernel }
    {
        Some(match name {
            "binary_add" => Kernel::BinaryAdd,
            "binary_div" => Kernel::BinaryDiv,
            "load_1" => Kernel::Load1,
            "load_2" => Kernel::Load2,
            "load_4" => Kernel::Load4,
            "load_8" => Kernel::Load8,
            "store_8" => Kernel::Store8,
            "charge" => Kernel::Charge,
            "read_module" => Kernel::ReadModule,
            "run_module" => Kernel::RunModule,
            "layers_new" => Kernel::LayersNew,
            "layers_get" => Kernel::LayersGet,
            "layers_next" => Kernel::LayersNext,
            "layers_keep" => Kernel::LayersKeep,
            "plain_get" => Kernel::PlainGet,
            "plain_next" => Kernel::PlainNext,
            "runs_new" => Kernel::RunsNew,
            "runs_get" => Kernel::RunsGet,
            "runs_next" => Kernel::RunsNext,
            "runs_change" => Kernel::RunsChange,
            "runs_merge" => Kernel::RunsMerge,
            _ => return None,
        })
    }
}

/// The number below 2^32 that a word of digits writes. A plus may stand first.
fn number(word: &str) -> Option<u32>
    ensures found { IfSome result (λ count. IsNumber word.now count) }
    ensures known { (count : ℕ) → IsNumber word.now count → result ≡ Some count }
{
    match word.parse::<u32>() {
        Ok(count) => Some(count),
        Err(_) => None,
    }
}

/// The kernel and the count that the words name.
pub fn asked(words: &[String]) -> Option<(Kernel, u32)>
    ensures found { IfSome result (λ asked. Asks (map string_bytes words.now) asked.0 asked.1) }
    ensures known { (kernel : Kernel) → (count : ℕ) →
        Asks (map string_bytes words.now) kernel count → result ≡ Some (kernel, count) }
{
    let [name, count] = words else {
        return None;
    };
    let kernel = Kernel::named(name)?;
    let count = number(count)?;
    Some((kernel, count))
}
