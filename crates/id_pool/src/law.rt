ghost use Rattle.id_pool.specs.Laws.{GoneStaysGone};

/// A law of pools: an id that is gone stays gone, whatever calls follow. An id that found its range once, and finds none
/// after some calls, finds none after any more. What the calls make of the slots is what their contracts say.
pub fn gone_stays_gone<T: Drop>()
    ensures { GoneStaysGone T }
{}
