// The call. It asks nothing of its caller: net, state and weights are examined first, in this order, and the first fault is told. It writes
// nothing.
ghost use Rattle.std.specs.Prelude.{◌≡◌};
ghost use Rattle.balance.specs.Told.{balance_of, no_balance, balance_told};
ghost use Rattle.balance.specs.Promised.{BalancePromise};

use crate::weigh;
use crate::weigh::Imbalance;
use engine::examine;
use forms::fault::Fault;

// 30: a transition puts out another weight than it takes in.
pub const UNBALANCED: u8 = 30;

// 31: the weights are not two bytes for each place.
pub const NO_WEIGHTS: u8 = 31;

// Numbers, as the C interface hands them on: the number of document 01 or of W6, and as index the transition for 4, 5, 6, 9 and 30 and else 0; what the state weighs, 0 on a refusal.
#[derive(Clone, Copy)]
pub struct BalanceTold {
    pub number: u8,
    pub index: usize,
    pub total: u64,
}

impl From<Result<u64, Imbalance>> for BalanceTold {
    ghost from_gives = { λ weighing told. told ≡ balance_of weighing };

    fn from(weighing: Result<u64, Imbalance>) -> BalanceTold {
        match weighing {
            Ok(total) => BalanceTold {
                number: 0,
                index: 0,
                total,
            },
            Err(Imbalance::Unbalanced(t)) => BalanceTold {
                number: UNBALANCED,
                index: t,
                total: 0,
            },
            Err(Imbalance::NoWeights) => BalanceTold {
                number: NO_WEIGHTS,
                index: 0,
                total: 0,
            },
        }
    }
}

impl From<Fault> for BalanceTold {
    ghost from_gives = { λ fault told. told ≡ no_balance fault };

    fn from(fault: Fault) -> BalanceTold {
        BalanceTold {
            number: fault.into(),
            index: fault.index(),
            total: 0,
        }
    }
}

// Whether each transition puts out the weight it takes in, and what the state weighs: 1 to 6, 8, 9, 31, 30.
pub fn balance(net: &[u8], state: &[u8], weights: &[u8]) -> BalanceTold
    ensures value { result ≡ balance_told net.now state.now weights.now }
    ensures balance_promise { BalancePromise net.now state.now weights.now result }
{
    match examine::examine_state(net, state) {
        Ok(net) => weigh::weigh(net, state, weights).into(),
        Err(fault) => fault.into(),
    }
}
