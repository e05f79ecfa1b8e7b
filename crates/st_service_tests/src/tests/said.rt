//! What a clerk says.
use crate::Order;
use st_service::{Refusal, Refused, Unposted};

/// What a clerk says to an order.
#[derive(Debug, PartialEq, Drop)]
pub enum Said {
    /// He was told, and replies nothing here.
    Told,
    /// He replies this.
    Reply(Order),
    /// His reply was not collected, and can be asked for again.
    Uncollected(Refusal),
    /// He was told, and there is no reply.
    Nothing,
    /// As many events wait at him as may, and the order comes back.
    Busy(Order),
    /// His house takes no orders any more, and the order comes back.
    Closed(Order),
    /// He refuses, and the order comes back.
    Refused(Refusal, Order),
}

impl Said {
    /// What he says who was not told.
    pub fn unposted(unposted: Unposted<Order>) -> Said {
        match unposted {
            Unposted::Busy(order) => Said::Busy(order),
            Unposted::Closed(order) => Said::Closed(order),
            Unposted::Refused(Refused { refusal, value }) => Said::Refused(refusal, value),
        }
    }

    /// What came of telling him something.
    pub fn told(told: Result<u64, Unposted<Order>>) -> Said {
        match told {
            Ok(_number) => Said::Told,
            Err(unposted) => Said::unposted(unposted),
        }
    }
}
