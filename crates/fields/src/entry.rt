// What stands at a sample of a chart.
ghost use Rattle.std.specs.Prelude.{◌≡◌};
ghost use Rattle.fields.specs.Charts.{told_height};
ghost use Rattle.zmap.specs.declared.sample.Sample.{Sample as Told};

use zmap::{Class, Sample};

// An entry of a chart tells a sample.
pub trait Entry: Copy {
    // The sample that the entry tells.
    ghost told: { Self → Told };

    // Tells the height and class of the entry.
    fn told(self) -> Sample
        ensures { result ≡ told self };
}

impl Entry for i32 {
    ghost told = { told_height };

    fn told(self) -> Sample {
        Sample {
            height: self,
            class: Class::Part,
        }
    }
}

impl Entry for Sample {
    ghost told = { λ s. s };

    fn told(self) -> Sample {
        self
    }
}
