//! A layered drawing of a graph whose nodes are in groups, and whose groups have an order.
//!
//! `drawing_of` gives each node a box in the box of its group, and each arrow a line between the
//! boxes of its ends. No two boxes of nodes overlap, each has the size that its node asks for, and
//! each is within the box of its group and within the picture (`IsSound` of `specs/Drawing`). A
//! group has its box above those of the groups that are below it in the order, and arrows go upwards
//! where they can. A search orders the nodes so that few lines cross; a proved test accepts its
//! answer.
//!
//! To be believed: `specs/Drawing`.
#![tactic(auto)]

mod drawing;
mod groups;
mod rows;
mod ways;

pub use drawing::{Drawing, Graph, Node, Place, Point, drawing_of};
pub use ways::badges_of;
