// The words at the front of the bytes.
ghost use Rattle.std.specs.Prelude.{◌≡◌, ◌+◌, ◌*◌, length, OnOk};
ghost use Rattle.jobs.specs.Parsers.{Gives, word, words};

use crate::reader::Reader;
use zmap::Fault;

impl Reader<'_> {
    // Reads the next word.
    fn word(&mut self) -> Result<i32, Fault>
        ensures gives { Gives (λ w. w) result self.new.rest.now (word self.old.rest.now) }
        ensures takes { OnOk result (length self.new.rest.now + 4 ≡ length self.old.rest.now) }
    {
        let (bytes, rest) = self.rest.split_first_chunk::<4>().ok_or(Fault::Short)?;
        self.rest = rest;
        Ok(i32::from_le_bytes(*bytes))
    }

    // Reads the next N words.
    #[tactic(auto, using(crate::proofs::Turns::words_done))]
    pub(crate) fn words<const N: usize>(&mut self) -> Result<[i32; N], Fault>
        ensures gives { Gives (λ ws. ws) result self.new.rest.now (words N self.old.rest.now) }
        ensures takes { OnOk result (length self.new.rest.now + 4 * N ≡ length self.old.rest.now) }
    {
        let mut out = [0; N];
        for word in out.iter_mut() {
            *word = self.word()?;
        }
        Ok(out)
    }
}
