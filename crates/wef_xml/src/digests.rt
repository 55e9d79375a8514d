//! Namespaces in the order of their digests.

ghost use Rattle.std.specs.Prelude.{◌≡◌, IfOk};

use std::alloc::AllocError;
use std::cmp::Ordering;
use std::marker::Model;
use wef_base::Namespace;

/// A namespace in the order of digests, which contracts see as the namespace alone. Two are compared
/// by their digests first, and in full only where these are the same. So long namespaces that differ
/// at their ends are put in order in a fixed time, and nothing but time rests on the digests.
#[derive(Drop)]
pub struct Digested {
    space: Namespace,
}

impl Model for Digested {
    ghost use Rattle.std.specs.Prelude.{ℕ, List};

    ghost Value = { List ℕ };

    ghost view = { λ d. d.space };
}

impl Digested {
    /// A namespace in this order.
    pub fn new(space: Namespace) -> Digested
        ensures { result ≡ space }
    {
        Digested { space }
    }

    /// The same namespace again, which shares the text.
    pub fn clone(&self) -> Result<Digested, AllocError>
        ensures { IfOk result (λ copy. copy ≡ self.now) }
    {
        Ok(Digested {
            space: self.space.clone()?,
        })
    }

    /// The namespace alone. It takes no memory.
    pub fn into_space(self) -> Namespace
        ensures { result ≡ self }
    {
        self.space
    }
}

impl PartialEq for Digested {
    ghost use Rattle.std.specs.Cmp.Lexicographic.{nat_list_eq_equiv, pointwise};
    ghost use Rattle.std.specs.Cmp.{partial_equiv_from_equiv};
    ghost use Rattle.std.specs.Prelude.{nat_eq};

    ghost eq = { pointwise nat_eq };

    ghost laws = { partial_equiv_from_equiv nat_list_eq_equiv };

    fn eq(&self, other: &Digested) -> bool {
        self.space == other.space
    }
}

impl Eq for Digested {
    ghost use Rattle.std.specs.Cmp.Lexicographic.{nat_list_eq_equiv};

    ghost laws = { nat_list_eq_equiv };
}

impl PartialOrd for Digested {
    ghost use Rattle.std.specs.declared.option.Option.TheVariants.{Some};
    ghost use Rattle.wef_xml.specs.Digests.{digest_cmp, digest_po};

    ghost partial_cmp = { λ x y. Some (digest_cmp x y) };

    ghost laws = { digest_po };

    fn partial_cmp(&self, other: &Digested) -> Option<Ordering> {
        Some(self.cmp(other))
    }
}

impl Ord for Digested {
    ghost use Rattle.std.specs.Prelude.{refl};
    ghost use Rattle.wef_xml.specs.Digests.{digest_cmp, digest_ties, digest_total};

    ghost cmp = { digest_cmp };

    ghost total = { digest_total };

    ghost matches_partial_cmp = { λ x y. refl };

    ghost matches_eq = { digest_ties };

    fn cmp(&self, other: &Digested) -> Ordering {
        match self.space.digest().cmp(other.space.digest()) {
            Ordering::Equal => self.space.cmp(&other.space),
            decided => decided,
        }
    }
}
