//! Which profile stands below which base, and the rows that come of it.

use fhir_names::Index;
use std::alloc::{AllocError, Global};

/// A profile of the tree.
#[derive(Clone, Copy)]
pub struct Profile<'s> {
    /// Its url.
    pub url: &'s str,
    /// What it rests on, as that is named.
    pub base: &'s str,
    /// The class of its verdict.
    pub class: &'static str,
    /// Its verdict in a word.
    pub word: &'static str,
    /// The shape of its verdict.
    pub shape: Shape,
}

/// The shape of a verdict.
#[derive(Clone, Copy)]
pub enum Shape {
    /// A dot.
    Dot,
    /// A cross.
    Cross,
    /// A triangle.
    Triangle,
    /// A square.
    Square,
    /// A rhomb.
    Rhomb,
}

/// Profiles and the bases of them that aren't among them, which stand behind them.
#[derive(Drop)]
pub(crate) struct Forest<'s> {
    pub(crate) names: Vec<&'s str>,
    places: Index,
    // the last that stands below each
    last: Vec<Option<usize>>,
    // the one before each, among those that stand below the same
    before: Vec<Option<usize>>,
}

/// A line of the picture: who stands there, how deep, and in which line its base is.
#[derive(Clone, Copy)]
pub(crate) struct Row {
    pub(crate) node: usize,
    pub(crate) depth: usize,
    pub(crate) base: Option<usize>,
}

// So many places, none of which is known.
fn no_places(alloc: Global, count: usize) -> Result<Vec<Option<usize>>, AllocError> {
    let mut places = Vec::with_capacity(alloc, count)?;
    for _ in 0..count {
        places.push(None)?;
    }
    Ok(places)
}

fn place_at(places: &[Option<usize>], at: usize) -> Option<usize> {
    places.get(at).copied()?
}

impl<'s> Forest<'s> {
    fn add(&mut self, alloc: Global, name: &'s str) -> Result<(), AllocError> {
        self.places.add(alloc, name, self.names.len())?;
        Ok(self.names.push(name)?)
    }

    fn add_base(&mut self, alloc: Global, name: &'s str) -> Result<(), AllocError> {
        match self.places.get(name) {
            Some(_) => Ok(()),
            None => self.add(alloc, name),
        }
    }

    fn add_all(&mut self, alloc: Global, profiles: &[Profile<'s>]) -> Result<(), AllocError> {
        for one in profiles {
            self.add(alloc, one.url)?;
        }
        Ok(())
    }

    fn add_bases(&mut self, alloc: Global, profiles: &[Profile<'s>]) -> Result<(), AllocError> {
        for one in profiles {
            self.add_base(alloc, one.base)?;
        }
        Ok(())
    }

    // Puts one behind those that stand below a base.
    fn put_below(&mut self, base: Option<usize>, place: usize) {
        let Some(base) = base else {
            return;
        };
        if base < self.last.len() && place < self.before.len() {
            self.before[place] = self.last[base];
            self.last[base] = Some(place);
        }
    }

    fn put_all_below(&mut self, profiles: &[Profile<'s>]) {
        for (place, one) in profiles.iter().enumerate() {
            let base = self.places.get(one.base);
            self.put_below(base, place);
        }
    }

    /// That of profiles.
    pub(crate) fn of(alloc: Global, profiles: &[Profile<'s>]) -> Result<Forest<'s>, AllocError> {
        let mut forest = Forest {
            names: Vec::new(alloc),
            places: Index::new(alloc),
            last: Vec::new(alloc),
            before: Vec::new(alloc),
        };
        forest.add_all(alloc, profiles)?;
        forest.add_bases(alloc, profiles)?;
        forest.last = no_places(alloc, forest.names.len())?;
        forest.before = no_places(alloc, forest.names.len())?;
        forest.put_all_below(profiles);
        Ok(forest)
    }

    // Puts what stands below a row in front of what is still to come, the last first.
    fn put_waiting(&self, row: Row, line: usize, waiting: &mut Vec<Row>) -> Result<(), AllocError> {
        let mut next = place_at(&self.last, row.node);
        for _ in 0..self.names.len() {
            let Some(node) = next else {
                return Ok(());
            };
            waiting.push(Row {
                node,
                depth: row.depth.saturating_add(1),
                base: Some(line),
            })?;
            next = place_at(&self.before, node);
        }
        Ok(())
    }

    // Puts in a tree's rows, from its root down. Each node comes once, also where bases run in a cycle.
    fn put_tree(
        &self,
        alloc: Global,
        root: usize,
        seen: &mut [bool],
        rows: &mut Vec<Row>,
    ) -> Result<(), AllocError> {
        let mut waiting = Vec::new(alloc);
        waiting.push(Row {
            node: root,
            depth: 0,
            base: None,
        })?;
        for _ in 0..=self.names.len() {
            let Some(row) = waiting.pop() else {
                return Ok(());
            };
            if row.node < seen.len() && !seen[row.node] {
                seen[row.node] = true;
                self.put_waiting(row, rows.len(), &mut waiting)?;
                rows.push(row)?;
            }
        }
        Ok(())
    }

    /// All rows: those below bases that aren't among the first so many, which are the profiles, and then those that stand below none.
    pub(crate) fn rows(&self, alloc: Global, profiles: usize) -> Result<Vec<Row>, AllocError> {
        let count = self.names.len();
        let mut seen = Vec::from_elem(alloc, false, count)?;
        let mut rows = Vec::new(alloc);
        for root in (profiles..count).chain(0..profiles) {
            self.put_tree(alloc, root, &mut seen, &mut rows)?;
        }
        Ok(rows)
    }
}
