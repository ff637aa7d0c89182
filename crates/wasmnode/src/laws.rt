ghost use Rattle.std.specs.Prelude.{List, length};
ghost use Rattle.wasmnode.specs.Reading.{Entry};
ghost use Rattle.wasmnode.specs.Run.{blocks_of, AreLawful, heights};

/// The heights that the queries of a run on one thread see are lawful.
pub fn heights_are_lawful()
    ensures { (entries : List Entry)
        → AreLawful (length (blocks_of entries)) (λ _. 0) 0 entries (heights 0 entries) }
{}
