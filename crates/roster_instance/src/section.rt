//! The items of a section, one after the other.

ghost use Rattle.std.specs.Prelude.{◌≡◌, ◌++◌, [], ◌∷◌, List, IfErr, OnOk};
ghost use Rattle.roster_instance.specs.Checking.{IsFirst};
ghost use Rattle.roster_instance.specs.Faults.{each};

use crate::fault::CaseFault;

/// What is built from the items of a section, each checked together with those before it.
pub(crate) trait Section<T> {
    ghost use Rattle.std.specs.Prelude.{List};
    ghost use Rattle.roster_instance.specs.declared.fault.CaseFault.{CaseFault};

    /// What the items are checked with: the source, and names. It doesn't change.
    ghost About: { Type 0 };

    ghost about: { Self → About };

    /// The faults of an item after these.
    ghost faults: { About → List T → T → List CaseFault };

    /// What is built is that of these items.
    ghost built: { Self → List T → Type 0 };

    fn add(&mut self, item: &T) -> Result<(), CaseFault>
        ensures same { about self.new ≡ about self.old }
        ensures built { (earlier : List T) → built self.old earlier →
            OnOk result (built self.new (earlier ++ item.now ∷ [])) }
        ensures none { (earlier : List T) → built self.old earlier →
            OnOk result (faults (about self.old) earlier item.now ≡ []) }
        ensures first { (earlier : List T) → built self.old earlier →
            IfErr result (IsFirst (faults (about self.old) earlier item.now)) };
}

/// Adds all items.
pub(crate) fn add_all<T, S: Section<T>>(section: &mut S, items: &[T]) -> Result<(), CaseFault>
    requires { S.built section.old [] }
    ensures same { S.about section.new ≡ S.about section.old }
    ensures built { OnOk result (S.built section.new items.now) }
    ensures none { OnOk result (each (S.faults (S.about section.old)) items.now ≡ []) }
    ensures first { IfErr result (IsFirst (each (S.faults (S.about section.old)) items.now)) }
{
    for item in items {
        section.add(item)?;
    }
    Ok(())
}
