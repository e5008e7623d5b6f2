// Stored groups: output groups whose elements are written and read as bytes.
#![tactic(auto)]

ghost use Rattle.std.specs.Prelude.{◌≡◌, ℕ, ◌+◌, ◌-◌, ◌/◌, ◌%◌, ◌^◌, min, List, ◌++◌, length, MatchOption, ◌≢◌, slice_index};
ghost use Rattle.std.proofs.Common.{ap, ◌∙◌, length-append, rules, arith};
ghost use Rattle.stored.specs.Forms.{four_bytes, eight_bytes};
ghost use Rattle.stored.specs.Bytes.{eight_same, eight_told, four_same, four_told};
ghost use Rattle.group.specs.Residues.{residue_path, reduce};
ghost use Rattle.stored.specs.Joins.{front, back};
ghost use Rattle.std.proofs.lemmas.List.{take_at, drop_at};

use group::{Flags, Group, Pair, Word};

pub trait StoredGroup: Group {
    // How many bytes an element has.
    ghost size: { ℕ };

    // The bytes of an element.
    ghost form: { Self → List ℕ };

    fn size_of() -> usize
        ensures { result ≡ min size (2 ^ 64 - 1) };

    fn write(self, out: &mut [u8])
        requires { length out.old ≡ size }
        ensures { out.new ≡ form self };

    // The element that has these bytes, or `None` where no element has them.
    fn read(bytes: &[u8]) -> Option<Self>
        ensures { MatchOption result ((e : Self) → form e ≢ bytes.now) (λ e. form e ≡ bytes.now) };

    ghost sized: { (a : Self) → length (form a) ≡ size };

    // Elements have the same bytes just where they mean the same.
    ghost same: { (a b : Self) → Self.Group.mean a ≡ Self.Group.mean b → form a ≡ form b };

    ghost told: { (a b : Self) → form a ≡ form b → Self.Group.mean a ≡ Self.Group.mean b };
}

// A word is 8 bytes, the lowest first.
impl StoredGroup for Word {
    ghost size = { 8 };

    ghost form = { λ w. eight_bytes w.0 };

    ghost sized = { Prim.search rules };

    ghost same = { λ a b e. eight_same a.0 b.0 (ap (λ r. r.0) e) };

    ghost told = { λ a b e. residue_path (2 ^ 64) (reduce (2 ^ 64) a.0) (reduce (2 ^ 64) b.0) (eight_told a.0 b.0 e) };

    fn size_of() -> usize {
        8
    }

    fn write(self, out: &mut [u8]) {
        let Word(word) = self;
        out.copy_from_slice(&word.to_le_bytes());
    }

    fn read(bytes: &[u8]) -> Option<Word> {
        let word = <[u8; 8]>::try_from(bytes).ok()?;
        Some(Word(u64::from_le_bytes(word)))
    }
}

// Flags are 4 bytes, the lowest first.
// Stays: an impl beside Word's. They are two types, and one impl for all number types would overlap the pair's.
impl StoredGroup for Flags {
    ghost size = { 4 };

    ghost form = { λ w. four_bytes w.0 };

    ghost sized = { Prim.search rules };

    ghost same = { λ a b e. four_same a.0 b.0 (ap (λ r. r.0) e) };

    ghost told = { λ a b e. residue_path (2 ^ 32) (reduce (2 ^ 32) a.0) (reduce (2 ^ 32) b.0) (four_told a.0 b.0 e) };

    fn size_of() -> usize {
        4
    }

    fn write(self, out: &mut [u8]) {
        let Flags(flags) = self;
        out.copy_from_slice(&flags.to_le_bytes());
    }

    fn read(bytes: &[u8]) -> Option<Flags> {
        let flags = <[u8; 4]>::try_from(bytes).ok()?;
        Some(Flags(u32::from_le_bytes(flags)))
    }
}

// A pair is its left part's bytes, then its right part's.
impl<L: StoredGroup, R: StoredGroup> StoredGroup for Pair<L, R> {
    ghost size = { L.StoredGroup.size + R.StoredGroup.size };

    ghost form = { λ p. L.StoredGroup.form p.left ++ R.StoredGroup.form p.right };

    ghost sized = { λ a.
        let l = L.StoredGroup.sized a.left in
        let r = R.StoredGroup.sized a.right in
        omega (arith, length-append (L.StoredGroup.form a.left) (R.StoredGroup.form a.right)) };

    ghost same = { Prim.search rules };

    ghost told = { λ a b e.
        let l = L.StoredGroup in
        let r = R.StoredGroup in
        let la = l.form a.left in
        let lb = l.form b.left in
        let ra = r.form a.right in
        let rb = r.form b.right in
        let n = l.size in
        let sa = L.StoredGroup.sized a.left in
        let sb = L.StoredGroup.sized b.left in
        let p = L.StoredGroup.told a.left b.left (front la ra _ n sa e ∙ take_at lb rb n sb) in
        let q = R.StoredGroup.told a.right b.right (back la ra _ n sa e ∙ drop_at lb rb n sb) in
        λ k. (p k, q k) };

    fn size_of() -> usize {
        L::size_of().saturating_add(R::size_of())
    }

    fn write(self, out: &mut [u8]) {
        let (left, right) = out.split_at_mut(L::size_of());
        self.left.write(left);
        self.right.write(right);
    }

    fn read(bytes: &[u8]) -> Option<Pair<L, R>> {
        let (left, right) = bytes.split_at_checked(L::size_of())?;
        let left = L::read(left)?;
        let right = R::read(right)?;
        Some(Pair { left, right })
    }
}
