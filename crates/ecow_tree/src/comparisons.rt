//! Equality, order, hash and debug text of a tree: those of its elements in order, however they are
//! spread over blocks. A tree comes before a longer one that begins with all its elements.
ghost use Rattle.std.specs.Cmp.Lexicographic.{pointwise, slice_cmp, slice_partial_cmp, lists_per, lists_equiv, lists_po, lists_total, lists_agrees, lists_ties};
ghost use Rattle.std.specs.Hash as fed;
ghost use Rattle.std.specs.Hash.{items_Alike};

use crate::tree::EcoTree;
use std::cmp::Ordering;
use std::fmt;
use std::hash::{Hash, Hasher};

impl<T: PartialEq> PartialEq for EcoTree<T> {
    ghost eq = { pointwise T.eq };

    ghost laws = { lists_per T.laws };

    fn eq(&self, other: &Self) -> bool {
        let len = self.len();
        if other.len() != len {
            return false;
        }
        let mut at = 0;
        while at < len {
            let (ours, theirs) = (self.chunk_at(at), other.chunk_at(at));
            let both = ours.len().min(theirs.len());
            if ours[..both] != theirs[..both] {
                return false;
            }
            at += both;
        }
        true
    }
}

impl<T: Eq> Eq for EcoTree<T> {
    ghost laws = { lists_equiv T.Eq.laws };
}

impl<T: PartialOrd> PartialOrd for EcoTree<T> {
    ghost partial_cmp = { slice_partial_cmp T.partial_cmp };

    ghost laws = { lists_po T.PartialOrd.laws };

    fn partial_cmp(&self, other: &Self) -> Option<Ordering> {
        let (mut ours, mut theirs) = (self.iter(), other.iter());
        while let Some(left) = ours.next() {
            let Some(right) = theirs.next() else {
                return Some(Ordering::Greater);
            };
            match left.partial_cmp(right) {
                Some(Ordering::Equal) => {}
                unequal => return unequal,
            }
        }
        match theirs.next() {
            Some(_) => Some(Ordering::Less),
            None => Some(Ordering::Equal),
        }
    }
}

impl<T: Ord> Ord for EcoTree<T> {
    ghost cmp = { slice_cmp T.cmp };

    ghost total = { lists_total T.total };

    ghost matches_partial_cmp = { λ v w. lists_agrees T.matches_partial_cmp v w };

    ghost matches_eq = { λ v w. lists_ties T.cmp T.matches_eq v w };

    fn cmp(&self, other: &Self) -> Ordering {
        let (mut ours, mut theirs) = (self.iter(), other.iter());
        while let Some(left) = ours.next() {
            let Some(right) = theirs.next() else {
                return Ordering::Greater;
            };
            match left.cmp(right) {
                Ordering::Equal => {}
                unequal => return unequal,
            }
        }
        match theirs.next() {
            Some(_) => Ordering::Less,
            None => Ordering::Equal,
        }
    }
}

impl<T: Hash> Hash for EcoTree<T> {
    ghost hash_input = { fed.slice T.hash_input };

    ghost respects_eq = { (items_Alike (record { fed = T.respects_eq })).fed };

    fn hash<H: Hasher>(&self, state: &mut H) {
        state.write_usize(self.len());
        let mut rest = self.iter();
        while let Some(element) = rest.next() {
            element.hash(state);
        }
    }
}

impl<T: fmt::Debug> fmt::Debug for EcoTree<T> {
    fn fmt<W: fmt::Write>(&self, f: &mut fmt::Formatter<W>) -> fmt::Result {
        f.debug_list().entries(self.iter()).finish()
    }
}
