// What every fault has: the refusal that it comes to.
ghost use Rattle.faults.specs.declared.refusal.Refusal.{Refusal};
ghost use Rattle.std.specs.Prelude.{◌≡◌};

use crate::layer::Layer;
use crate::refusal::Refusal;

pub trait Fault: Copy {
    ghost refusal_of: { Self → Refusal };

    fn refusal(self) -> Refusal
        ensures value { result ≡ refusal_of self };

    final fn number(self) -> u8
        ensures number { result ≡ (refusal_of self).number }
    {
        self.refusal().number
    }

    final fn layer(self) -> Layer
        ensures layer { result ≡ (refusal_of self).layer }
    {
        self.refusal().layer
    }

    final fn place(self) -> usize
        ensures place { result ≡ (refusal_of self).place }
    {
        self.refusal().place
    }
}
