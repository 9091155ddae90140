//! A program and its policy as a page and as pictures.
//!
//! The input is a lattice, a source text and a profile. `filed_page` makes an HTML page that needs
//! nothing else: no script, no font, and no picture from elsewhere. The first thing that the page
//! shows is the compiler's verdict (`HasVerdict` of `specs/Verdict`). `lattice_dot`, `flows_dot`
//! and `policy_dot` write its pictures in the language of Graphviz. Every byte of a text or a name
//! enters a page through `put_escaped`, and the panel of a source text shows the text (`Shows` of
//! `specs/Reading`).
//!
//! To be believed: `specs/Banner`, `specs/Covering`, `specs/Escape`, `specs/Filled`,
//! `specs/FlowsGraph`, `specs/Graph`, `specs/Lead`, `specs/Page`, `specs/Reading` and
//! `specs/Verdict`; the other files of `specs/` are only steps of proofs.
#![tactic(auto)]

mod banner;
mod dot;
mod facts;
mod flows_graph;
mod leak;
mod page;
mod panel;
mod picture;
mod report;
mod sections;

pub use dot::lattice_dot;
pub use flows_graph::{flows_dot, policy_dot};
pub use page::put_escaped;
pub use report::filed_page;
pub use sections::Filing;
