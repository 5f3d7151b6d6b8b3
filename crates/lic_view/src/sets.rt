//! Sets of places, as spans.

pub(crate) mod fresh;
pub(crate) mod joined;
pub(crate) mod keep;
pub(crate) mod kept;
pub(crate) mod merged;
pub(crate) mod places;
pub(crate) mod same;
pub(crate) mod singles;
pub(crate) mod stop;
pub(crate) mod wide;
