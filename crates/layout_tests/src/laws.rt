//! The calls that do nothing: the contract of each is a law.

use abcps_words::{asked_is_good, asks_one};
use lay_breaks::one_is_chosen;
use lay_cert::{faults_tell_none, forced_by_spans, in_parts, no_prefix_is_a_listing, tells_one};
use lay_reaches::Column;
use lay_springs::{longer_fits_less, one_force};
use ps_read::{good_by_lines, no_prefix_is_a_document};

fn state_laws_of_listings() {
    lay_cert::good_by_lines();
    tells_one();
    faults_tell_none();
    no_prefix_is_a_listing();
    in_parts();
    forced_by_spans();
}

/// Calls each of them.
pub(crate) fn state_laws() {
    longer_fits_less::<Column>();
    one_force::<Column>();
    one_is_chosen();
    good_by_lines();
    no_prefix_is_a_document();
    asks_one();
    asked_is_good();
    state_laws_of_listings();
}
