// What a kind of record is to the reader of records.
ghost use Rattle.std.specs.Prelude.{◌≡◌, ℕ, ◌+◌, ◌*◌, List, length, ℤ, Result as Outcome, OnOk};
ghost use Rattle.zmap.specs.declared.fault.Fault.{Fault as Refusal};
ghost use Rattle.jobs.specs.Parsers.{Gives};
ghost use Rattle.jobs.specs.Records.{one_record};

use crate::reader::Reader;
use zmap::Fault;

// A kind of record has so many words, which make an item or a fault.
pub(crate) trait Kind {
    type Item: Drop;

    // What is told of an item: the item itself, or its plain numbers.
    ghost Told: { Type 0 };

    ghost told: { Self.Item → Told };

    // How many words a record has.
    ghost width: { ℕ };

    // What the words make.
    ghost item: { Self → List ℤ → Outcome Told Refusal };

    // Reads the item of the next record. Each kind asks for its words itself: with the width as a const parameter of the trait, the
    // clauses of an implementation at a literal width get no proof.
    fn read(&self, input: &mut Reader<'_>) -> Result<Self::Item, Fault>
        ensures gives { Gives told result input.new.rest.now (one_record width (item self.now) input.old.rest.now) }
        ensures takes { OnOk result (length input.new.rest.now + 4 * width ≡ length input.old.rest.now) };
}
