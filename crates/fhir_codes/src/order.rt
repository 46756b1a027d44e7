//! An order in which each value set stands behind those that it names, as far as there is one. Nothing rests on it but
//! how long it takes to find their concepts.

use crate::composing::{excludes, includes};
use crate::sources::Sources;
use fhir_json::{Json, NoMemory};
use std::alloc::Global;

// Who names each value set, and how many of those that each names are still to come.
#[derive(Drop)]
struct Waiting {
    users: Vec<Vec<usize>>,
    counts: Vec<usize>,
}

impl Waiting {
    fn of(alloc: Global, sources: &Sources<'_, '_>) -> Result<Waiting, NoMemory> {
        let mut waiting = Waiting {
            users: Vec::new(alloc),
            counts: Vec::new(alloc),
        };
        for _place in 0..sources.len() {
            waiting.users.push(Vec::new(alloc))?;
            waiting.counts.push(0)?;
        }
        waiting.put_all(sources)?;
        Ok(waiting)
    }

    fn put_all(&mut self, sources: &Sources<'_, '_>) -> Result<(), NoMemory> {
        for user in 0..sources.len() {
            if let Some(json) = sources.tree(user) {
                self.put_parts(sources, includes(json), user)?;
                self.put_parts(sources, excludes(json), user)?;
            }
        }
        Ok(())
    }

    fn put_parts(
        &mut self,
        sources: &Sources<'_, '_>,
        parts: &[Json<'_>],
        user: usize,
    ) -> Result<(), NoMemory> {
        for part in parts {
            self.put_part(sources, part.items_in("valueSet"), user)?;
        }
        Ok(())
    }

    fn put_part(
        &mut self,
        sources: &Sources<'_, '_>,
        names: &[Json<'_>],
        user: usize,
    ) -> Result<(), NoMemory> {
        for name in names {
            if let Some(place) = sources.place(name.text_or_empty()) {
                self.put(place, user)?;
            }
        }
        Ok(())
    }

    fn put(&mut self, named: usize, user: usize) -> Result<(), NoMemory> {
        let Some(list) = self.users.get_mut(named) else {
            return Ok(());
        };
        list.push(user)?;
        if let Some(count) = self.counts.get_mut(user) {
            *count = count.saturating_add(1);
        }
        Ok(())
    }

    // Takes one name away, and says whether it was the last.
    fn free(&mut self, user: usize) -> bool {
        match self.counts.get_mut(user) {
            Some(count) => {
                if *count == 0 {
                    return false;
                }
                *count -= 1;
                *count == 0
            }
            None => false,
        }
    }

    fn free_users(&mut self, users: &[usize], order: &mut Vec<usize>) -> Result<(), NoMemory> {
        for user in users {
            if self.free(*user) {
                order.push(*user)?;
            }
        }
        Ok(())
    }

    fn take_users(&mut self, alloc: Global, place: usize) -> Vec<usize> {
        match self.users.get_mut(place) {
            Some(list) => std::mem::replace(list, Vec::new(alloc)),
            None => Vec::new(alloc),
        }
    }

    // Those that wait for none.
    fn free_ones(&self, alloc: Global) -> Result<Vec<usize>, NoMemory> {
        let mut order = Vec::new(alloc);
        for (place, count) in self.counts.iter().enumerate() {
            if *count == 0 {
                order.push(place)?;
            }
        }
        Ok(order)
    }
}

/// The places of the value sets, each behind those that it names. What rests on itself is left out.
pub(crate) fn order_of(alloc: Global, sources: &Sources<'_, '_>) -> Result<Vec<usize>, NoMemory> {
    let mut waiting = Waiting::of(alloc, sources)?;
    let mut order = waiting.free_ones(alloc)?;
    let mut at = 0;
    while at < order.len() {
        let users = waiting.take_users(alloc, order[at]);
        at += 1;
        waiting.free_users(&users, &mut order)?;
    }
    Ok(order)
}
