// A checked net: its bytes, and its shape, which is found once and goes with them from call to call. The state is no field: it is lent to be written,
// so each function asks of it, by `IsState`, that it is one of this net.
ghost use Rattle.std.specs.Prelude.{◌≡◌, ◌<◌, ◌≤◌, Ok, MatchResult};
ghost use Rattle.forms.specs.Nets.{check_net};
ghost use Rattle.forms.specs.Stored.{net_of};
ghost use Rattle.forms.specs.Frame.{HasShape};

use crate::fault::Fault;
use crate::{net, places, words};
use model::net::Net;

#[derive(Clone, Copy)]
pub struct CheckedNet<'a> {
    pub bytes: &'a [u8],
    pub shape: Net,
    ghost passes: { check_net bytes.now ≡ Ok tt },
    ghost has_shape: { HasShape (net_of bytes.now) shape },
    ghost column: { 0 < shape.width },
    ghost small: { (shape.places < 256) × (shape.transitions < 256) × (shape.width ≤ 256) },
}

impl<'a> CheckedNet<'a> {
    // Checks the bytes of a net: 1 to 6.
    #[tactic(auto, using(crate::proofs::Nets::checks))]
    pub fn of(bytes: &'a [u8]) -> Result<CheckedNet<'a>, Fault>
        ensures { MatchResult result (λ net. (check_net bytes.now ≡ Ok tt) × (net.bytes ≡ bytes.entry)) (λ fault. check_net bytes.now ≡ Err fault) }
    {
        net::check_net(bytes)?;
        Ok(CheckedNet {
            bytes,
            shape: net::shape_of(bytes),
        })
    }

    // The shortest duration of transition t.
    #[tactic(auto, using(crate::proofs::CheckedNets::limits), unfolding(crate::specs::Stored::net_of))]
    pub fn sfd(self, t: usize) -> usize
        requires { t < self.shape.transitions }
        ensures { result ≡ (net_of self.entry.bytes.now).sfd t }
    {
        usize::from(self.bytes[places::row_at(self.shape.places, t)])
    }

    // The longest duration of transition t. The bound leaves room for every width that fits its byte.
    #[tactic(auto, using(crate::proofs::CheckedNets::limits), unfolding(crate::specs::Stored::net_of))]
    pub fn lfd(self, t: usize) -> usize
        requires { t < self.shape.transitions }
        ensures { (result ≡ (net_of self.entry.bytes.now).lfd t) × (result < 255) }
    {
        usize::from(self.bytes[places::lfd_at(self.shape.places, t)])
    }
}
