//! What of a file can puzzle its user, and the steps of an address to its answer.
#![tactic(auto)]

mod note;
mod overlaps;
mod pairing;
mod reasons;
mod scene;
mod section_headers;
mod survey;
mod way;

pub use note::{Allocated, Fact, Note, Part, Words, digits_of};
pub use overlaps::{Overlap, overlap_of, tell_owner};
pub use pairing::{build_id_in, supplementary, text_in};
pub use reasons::{
    DW_UT_SPLIT_COMPILE, DW_UT_SPLIT_TYPE, DW_UT_TYPE, Field, Found, Reason, Spot, Wanted,
    fault_reason, refusal_reason,
};
pub use scene::{DW_AT_dwo_name, DW_AT_producer, Scene, root_text, tell_skipped, tell_unit};
pub use survey::{Group, Matter, Survey};
pub use way::{steps_through, uncovered_note};
