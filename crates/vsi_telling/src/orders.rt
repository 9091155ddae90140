//! The explanation of a lattice file whose pairs form a cycle, or in which two classes lack one
//! above both, or one below both.

use crate::parts::key_place;
use crate::telling::{Part, Telling, Told};
use std::alloc::{AllocError, Global};
use vsi_recovery::{Addition, Placement, Rank, completion, links, nearest, placements};
use vsi_syntax::{Span, put_number};

/// How many names are tried for an added class: more than there are classes.
const MOST_TRIED: usize = 70;

/// The classes of a lattice file by their names, and its pairs by the numbers of their classes, the
/// lower one first.
#[derive(Drop)]
pub(crate) struct Order<'t> {
    pub(crate) names: Vec<&'t [u8]>,
    pub(crate) pairs: Vec<(u8, u8)>,
}

/// Two classes that lack one above both if `is_up`, otherwise one below both.
#[derive(Clone, Copy)]
pub(crate) struct Lack {
    pub(crate) a: u8,
    pub(crate) b: u8,
    pub(crate) is_up: bool,
}

/// The part of a file that holds the pair of `below` with a number.
fn pair_place(bytes: &[u8], number: usize) -> Option<Span> {
    let key = key_place(bytes, b"below")?;
    let mut is_quoted = false;
    let mut begun: usize = 0;
    let mut start = None;
    for at in key.start..bytes.len() {
        match bytes[at] {
            b'"' | b'\'' => is_quoted = !is_quoted,
            b'[' if !is_quoted => {
                if begun == number.saturating_add(1) {
                    start = Some(at);
                }
                begun = begun.saturating_add(1);
            }
            b']' if !is_quoted => {
                if let Some(start) = start {
                    let stop = at.saturating_add(1);
                    return Some(Span { start, stop });
                }
            }
            _ => {}
        }
    }
    None
}

impl<'t> Order<'t> {
    /// The name of a class.
    fn name(&self, class: u8) -> &'t [u8] {
        self.names.get(usize::from(class)).copied().unwrap_or(b"")
    }

    /// The names of two classes between back quotes.
    fn quoted(&self, (one, other): (u8, u8)) -> [Part<'t>; 2] {
        [Part::Quoted(self.name(one)), Part::Quoted(self.name(other))]
    }

    /// The pair of two classes, as a part of a sentence.
    fn listed(&self, (low, high): (u8, u8)) -> Part<'t> {
        Part::Pair(self.name(low), self.name(high))
    }

    /// Whether a class is in none of the pairs.
    fn is_unplaced(&self, class: u8) -> bool {
        let has = |(low, high): &(u8, u8)| *low == class || *high == class;
        !self.pairs.iter().any(has)
    }

    /// The classes of the pair with a number.
    fn pair(&self, number: usize) -> (u8, u8) {
        self.pairs.get(number).copied().unwrap_or((0, 0))
    }

    /// The numbers of pairs that lead from a class back to it, the last one first.
    fn cycle(&self, alloc: Global, class: u8) -> Result<Vec<usize>, AllocError> {
        let mut into: Vec<Option<usize>> = Vec::new(alloc);
        into.resize(self.names.len(), None)?;
        // A turn notes for each class that is reached by one pair more with which pair it is.
        for _ in 0..self.names.len() {
            for number in 0..self.pairs.len() {
                let (low, high) = self.pairs[number];
                let (from, to) = (usize::from(low), usize::from(high));
                let is_reached = low == class || into.get(from).copied().flatten().is_some();
                if is_reached && to < into.len() && into[to].is_none() {
                    into[to] = Some(number);
                }
            }
        }
        let mut cycle = Vec::new(alloc);
        let mut at = class;
        for _ in 0..self.names.len() {
            let Some(number) = into.get(usize::from(at)).copied().flatten() else {
                break;
            };
            cycle.push(number)?;
            at = self.pair(number).0;
            if at == class {
                break;
            }
        }
        Ok(cycle)
    }
}

/// A name for an added class that no class has: this one, or this one and a number.
fn fresh_name(alloc: Global, names: &[Vec<u8>], base: &[u8]) -> Result<Vec<u8>, AllocError> {
    for turn in 1..MOST_TRIED {
        let mut name = Vec::from_slice(alloc, base)?;
        if turn > 1 {
            put_number(&mut name, turn)?;
        }
        if !names.contains(&name) {
            return Ok(name);
        }
    }
    Ok(Vec::new(alloc))
}

/// The names of classes, and those of the added ones, each by the pairs of its class.
fn all_names(
    alloc: Global,
    names: &[&[u8]],
    addition: &Addition,
) -> Result<Vec<Vec<u8>>, AllocError> {
    let mut all = Vec::new(alloc);
    for name in names {
        all.push(Vec::from_slice(alloc, name)?)?;
    }
    for _more in 0..addition.count {
        let class = all.len();
        let mut pairs = addition.pairs.iter();
        let has_low = pairs.any(|(_, high)| usize::from(*high) == class);
        let mut pairs = addition.pairs.iter();
        let has_high = pairs.any(|(low, _)| usize::from(*low) == class);
        let base: &[u8] = match (has_low, has_high) {
            (true, false) => b"Top",
            (false, true) => b"Public",
            _ => b"Both",
        };
        let name = fresh_name(alloc, &all, base)?;
        all.push(name)?;
    }
    Ok(all)
}

/// The condition of a placement.
fn case_of(rank: &Rank) -> &'static str {
    match rank {
        Rank::Above => "if it is above all others, add ",
        Rank::Below => "if it is below all others, add ",
        Rank::Between => "if it is between the others, add ",
        Rank::Levels => "if each class is below the next one, add ",
    }
}

impl Telling<'_> {
    /// Adds the explanation of pairs that form a cycle, and returns the place of the wrong one.
    pub(crate) fn put_ring(&mut self, order: &Order, class: u8) -> Told {
        let cycle = order.cycle(self.alloc, class)?;
        let mut is_first = true;
        for number in cycle.iter().rev() {
            let sentence = if is_first {
                "% is below %"
            } else {
                ", % below %"
            };
            self.say(sentence, &order.quoted(order.pair(*number)))?;
            is_first = false;
        }
        // The pair that goes against the order of the classes, where one alone does.
        let mut wrong = cycle.iter().copied().filter(|number| {
            let (low, high) = order.pair(*number);
            high <= low
        });
        let (Some(number), None) = (wrong.next(), wrong.next()) else {
            return self.tell(
                None,
                ": that is a cycle.\nHint: remove the pair that is the wrong way round. Removing \
                another pair changes who may see what.\n",
                &[],
            );
        };
        self.tell(
            pair_place(self.bytes, number),
            ": that is a cycle.\nHint: `%` goes against the order of `classes`: perhaps it is the \
            wrong way round, or superfluous. Removing another pair changes who may see what.\n",
            &[order.listed(order.pair(number))],
        )
    }

    /// Adds pairs of classes with these names as a lattice file writes them, between back quotes.
    fn put_pairs(&mut self, order: &Order, pairs: &[(u8, u8)]) -> Result<(), AllocError> {
        let mut joint = "`";
        for pair in pairs {
            let parts = [Part::Text(joint.as_bytes()), order.listed(*pair)];
            self.say("%%", &parts)?;
            joint = ", ";
        }
        self.add("`")
    }

    /// Adds the pairs that place one of the two classes that is in none, if there are any.
    fn put_unplaced(&mut self, order: &Order, lack: Lack) -> Result<bool, AllocError> {
        let is_unplaced = |class: &u8| order.is_unplaced(*class);
        let Some(class) = [lack.b, lack.a].iter().copied().find(is_unplaced) else {
            return Ok(false);
        };
        let count = order.names.len();
        let found = placements(self.alloc, count, &order.pairs, class)?;
        if found.is_empty() {
            return Ok(false);
        }
        let sentence = match found.as_slice() {
            [only] if only.rank == Rank::Levels => "`below` is empty.",
            _ => "% isn't in any pair of `below`.",
        };
        self.say(sentence, &[Part::Quoted(order.name(class))])?;
        let mut joint = " Hint: ";
        for placement in &found {
            self.add(joint)?;
            self.add(case_of(&placement.rank))?;
            self.put_pairs(order, &placement.pairs)?;
            self.add(" to `below`")?;
            joint = "; ";
        }
        self.add(".\n")?;
        if order.pairs.is_empty()
            && let Some(addition) = completion(self.alloc, count, &order.pairs)?
        {
            self.put_addition(order, "Or add ", &addition)?;
        }
        Ok(true)
    }

    /// Adds which class the two lack.
    fn put_lack(&mut self, order: &Order, lack: Lack) -> Result<(), AllocError> {
        let [a, b] = order.quoted((lack.a, lack.b));
        if !lack.is_up {
            let sentence =
                "No class is below both % and %. A value that may flow to both needs one.\n";
            return self.say(sentence, &[a, b]);
        }
        let count = order.names.len();
        let near = nearest(self.alloc, count, &order.pairs, lack.a, lack.b)?;
        let names = near.iter().map(|class| order.name(*class));
        let near: Vec<&[u8]> = names.collect(self.alloc)?;
        let sentence = if near.is_empty() {
            "No class is above both % and %. A value computed from both needs one.\n"
        } else {
            "The lowest classes above both % and % are %: a value computed from both needs a \
            single lowest one.\n"
        };
        self.say(sentence, &[a, b, Part::Names(&near)])
    }

    /// Adds the classes and pairs that complete an order.
    fn put_addition(
        &mut self,
        order: &Order,
        begin: &str,
        addition: &Addition,
    ) -> Result<(), AllocError> {
        let all = all_names(self.alloc, &order.names, addition)?;
        let names: Vec<&[u8]> = all.iter().map(|name| name.as_slice()).collect(self.alloc)?;
        let more = all.iter().skip(order.names.len());
        let added: Vec<&[u8]> = more.map(|name| name.as_slice()).collect(self.alloc)?;
        self.add(begin)?;
        self.say("% to `classes`, and ", &[Part::Names(&added)])?;
        let pairs = Vec::new(self.alloc);
        self.put_pairs(&Order { names, pairs }, &addition.pairs)?;
        self.add(" to `below`.\n")
    }

    /// Adds the pairs, one of which makes an order a lattice.
    fn put_pair_choices(
        &mut self,
        order: &Order,
        begin: &str,
        found: &[(u8, u8)],
    ) -> Result<(), AllocError> {
        let mut joint = begin;
        for pair in found {
            let [one, other] = order.quoted(*pair);
            let parts = [
                Part::Text(joint.as_bytes()),
                order.listed(*pair),
                one,
                other,
            ];
            self.say("%`%` to `below` if % may flow to %", &parts)?;
            joint = "; or add ";
        }
        self.add(if found.is_empty() { "" } else { ".\n" })
    }

    /// Adds which class above two others is missing if `is_up`, otherwise which class below them,
    /// and what to add to the file: each text that is offered makes it a lattice.
    pub(crate) fn put_missing(&mut self, order: &Order, lack: Lack) -> Result<(), AllocError> {
        if self.put_unplaced(order, lack)? {
            return Ok(());
        }
        self.put_lack(order, lack)?;
        let count = order.names.len();
        let addition = completion(self.alloc, count, &order.pairs)?;
        let found = links(self.alloc, count, &order.pairs, lack.a, lack.b, lack.is_up)?;
        match &addition {
            Some(addition) => {
                self.put_addition(order, "Hint: add ", addition)?;
                self.put_pair_choices(order, "Or add ", &found)
            }
            None if found.is_empty() => self.add(
                "Hint: adding up to four classes, or one pair, doesn't make it a lattice. `vsi \
                help lattice` shows lattices of usual shapes.\n",
            ),
            None => self.put_pair_choices(order, "Hint: add ", &found),
        }
    }
}
