//! Pairs that wait for their turn, each once.

ghost use Rattle.std.specs.Prelude.{◌≡◌, ◌++◌, [], ◌||◌, IfNone, OnOk};
ghost use Rattle.std.specs.Option.{option_to_list};
ghost use Rattle.fhir_certificate.specs.declared.pair.Pair.{Pair};
ghost use Rattle.fhir_cert_check.specs.PairSet.{same_pair};
ghost use Rattle.fhir_derive_check.specs.Finding.{is_in};
ghost use Rattle.fhir_derive_check.specs.Pruning.{waiting_in, IsQueue};

use fhir_cert_check::PairSet;
use fhir_certificate::Pair;
use fhir_json::NoMemory;
use std::alloc::Global;
use std::collections::VecDeque;

// Memory is all that can be wanting.
type Done = Result<(), NoMemory>;

/// Pairs that wait for their turn, each once.
#[derive(Drop)]
pub(crate) struct Queue {
    /// Those that come first, in turn.
    pub(crate) soon: VecDeque<Pair>,
    /// Those that come where none of the others waits, in turn.
    pub(crate) late: VecDeque<Pair>,
    /// All of them, to find each fast.
    pub(crate) waiting: PairSet,
}

fn first_of(soon: &mut VecDeque<Pair>, late: &mut VecDeque<Pair>) -> Option<Pair>
    ensures first { soon.old.items ++ late.old.items ≡ option_to_list result ++ (soon.new.items ++ late.new.items) }
    ensures none { IfNone result (soon.old.items ++ late.old.items ≡ []) }
{
    match soon.pop_front() {
        Some(pair) => Some(pair),
        None => late.pop_front(),
    }
}

impl Queue {
    /// No pairs, which takes no memory.
    pub(crate) fn new(alloc: Global) -> Queue
        ensures none { waiting_in result ≡ [] }
        ensures queue { IsQueue result }
    {
        Queue {
            soon: VecDeque::new(alloc),
            late: VecDeque::new(alloc),
            waiting: PairSet::new(alloc),
        }
    }

    // Puts a pair behind the others of its kind, unless it waits already.
    fn put(&mut self, pair: Pair, is_late: bool) -> Done
        ensures pairs { OnOk result (IsQueue self.old → (p : Pair) → is_in (waiting_in self.new) p ≡ (same_pair p pair || is_in (waiting_in self.old) p)) }
        ensures queue { OnOk result (IsQueue self.old → IsQueue self.new) }
    {
        if !self.waiting.insert(pair)? {
            return Ok(());
        }
        if is_late {
            self.late.push_back(pair)?;
            return Ok(());
        }
        self.soon.push_back(pair)?;
        Ok(())
    }

    /// Puts pairs behind the others, but for those that wait already. Those of a set come late.
    pub(crate) fn put_all(&mut self, pairs: &[Pair], late: &PairSet) -> Done
        ensures pairs { OnOk result (IsQueue self.old → (p : Pair) → is_in (waiting_in self.new) p ≡ (is_in pairs.now p || is_in (waiting_in self.old) p)) }
        ensures queue { OnOk result (IsQueue self.old → IsQueue self.new) }
    {
        for pair in pairs {
            self.put(*pair, late.has(*pair))?;
        }
        Ok(())
    }

    /// Takes out the first, which waits no longer.
    pub(crate) fn take_first(&mut self) -> Option<Pair>
        ensures first { waiting_in self.old ≡ option_to_list result ++ waiting_in self.new }
        ensures none { IfNone result (waiting_in self.old ≡ []) }
        ensures queue { IsQueue self.old → IsQueue self.new }
    {
        let pair = first_of(&mut self.soon, &mut self.late)?;
        self.waiting.remove(pair);
        Some(pair)
    }
}
