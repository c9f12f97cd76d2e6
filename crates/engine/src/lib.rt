// The calls of documents 01 and 02 at the rig for programs in other languages, as a static library: C's structs tw_chart and tw_run are lent as they
// lie, and nothing is copied on the way. Each answers the number of refusal; lib/tolwaziho.c calls it by the name in include/tolwaziho.h.
#![tactic(auto)]

pub mod indexing;
pub mod running;
pub mod turning;

use chart::Chart;
use run::Run;

// As large as C's structs, whose fields `lib/tolwaziho.c` tests one by one.
const _: () = prove!(size_of::<Chart>() == 4560);

const _: () = prove!(size_of::<Run>() == 448);
