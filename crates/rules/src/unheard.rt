// Which present boxes have not answered the lease of a leader.
ghost use Rattle.std.specs.Prelude.{◌≡◌};
ghost use Rattle.rules.specs.Unheard.{lease_is_out, unheard_by};

use crate::model::{BoxState, Phase, Refusal, Setting};
use crate::sets;

impl BoxState {
    pub(crate) fn lease_is_out(self, s: Setting) -> bool
        ensures { result ≡ lease_is_out self s }
    {
        let out = (self.phase == Phase::Lease) | (self.phase == Phase::LeaseDone);
        sets::is_even(s.epoch) & self.leads & out
    }

    pub fn unheard(self, s: Setting) -> Result<u32, Refusal>
        ensures { result ≡ unheard_by self s }
    {
        let out = self.lease_is_out(s);
        if out {
            return Ok(s.present ^ (s.present & self.heard));
        }
        Err(Refusal::Condition)
    }
}
