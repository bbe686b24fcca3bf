use cns_shake::Shaker;
use cns_trades::TradeRows;

/// What the commands of a script take from: the rows of trades that are left, and the generator of a run
/// that is shaken.
#[derive(Drop)]
pub(crate) struct Supply {
    pub(crate) trades: TradeRows,
    pub(crate) shaker: Option<Shaker>,
}
