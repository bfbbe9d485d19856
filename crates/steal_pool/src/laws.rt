//! What holds of each deque of a pool between any two steps, whatever the threads do.
ghost use Rattle.steal_pool.specs.PoolLaws.{NothingIsTakenTwice, FirstLeaveFirst};

/// At every moment the names put into a deque are those taken from it and those that it holds, each
/// as often. So a name is handed out at most once for each time that it was put, by whichever hand.
/// The names that have left are those that were put first, for every number of hands.
pub fn names_leave_once_in_order()
    ensures once { NothingIsTakenTwice }
    ensures order { FirstLeaveFirst }
{}
