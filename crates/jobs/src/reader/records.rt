// Records at the front of the bytes, and sections of them.
ghost use Rattle.std.specs.Prelude.{◌≡◌, ◌+◌, ◌*◌, length, map, vec_items, OnOk};
ghost use Rattle.jobs.specs.Parsers.{Gives};
ghost use Rattle.jobs.specs.Records.{one_record, placed, Room};
ghost use Rattle.jobs.specs.Sections.{count, single, listed};

use crate::count::Counts;
use crate::empty::Empty;
use crate::kind::Kind;
use crate::reader::Reader;
use crate::{Bad, Section};

impl Reader<'_> {
    // Reads a record, the one at that place of the section.
    fn record<K: Kind>(&mut self, kind: &K, section: Section, at: usize) -> Result<K::Item, Bad>
        ensures gives { Gives K.told result self.new.rest.now (placed section at (one_record K.width (K.item kind.now) self.old.rest.now)) }
        ensures takes { OnOk result (length self.new.rest.now + 4 * K.width ≡ length self.old.rest.now) }
    {
        kind.read(self).map_err(|fault| Bad { fault, section, at })
    }

    // Reads how many records a section has.
    #[tactic(auto, unfolding(crate::specs::Sections::count))]
    pub(crate) fn count(&mut self, section: Section, counts: Counts) -> Result<usize, Bad>
        ensures { Gives (λ n. n) result self.new.rest.now (count section counts.low counts.high self.old.rest.now) }
    {
        self.record(&counts, section, 0)
    }

    // Reads a section of one record.
    #[tactic(auto, unfolding(crate::specs::Sections::single))]
    pub(crate) fn single<K: Kind>(&mut self, kind: &K, section: Section) -> Result<K::Item, Bad>
        ensures { Gives K.told result self.new.rest.now (single section K.width (K.item kind.now) self.old.rest.now) }
    {
        self.count(section, Counts::exactly(1))?;
        self.record(kind, section, 0)
    }

    // Reads a section of as many records as its count says into the room for them.
    #[tactic(auto, using(crate::proofs::Turns::record_turns), unfolding(crate::specs::Sections::listed))]
    pub(crate) fn listed<K: Kind, const N: usize>(
        &mut self,
        kind: &K,
        section: Section,
        counts: Counts,
        into: Empty<K::Item, N>,
    ) -> Result<Vec<K::Item>, Bad>
        requires { Room K.width counts.high 65536 N }
        ensures { Gives (λ v. map K.told (vec_items v)) result self.new.rest.now
            (listed section counts.low counts.high K.width (K.item kind.now) self.old.rest.now) }
    {
        let n = self.count(section, counts)?;
        let mut items = into.room;
        for at in 0..n {
            // reading has no want of memory: the room was asked for with the store
            items.push_reserved(self.record(kind, section, at)?);
        }
        Ok(items)
    }
}
