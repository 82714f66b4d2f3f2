ghost use Rattle.std.specs.Prelude.{◌≡◌, ◌≤◌, List, length};
ghost use Rattle.stores.specs.Stores.{shown_item, register_after, values_after};

use kinds::kind::Kind;

// The most values that a store means.
pub const CAPACITY: usize = 4096;

// A store that tells how many items it has and which number each of them shows.
pub trait ShowingStore<K: Kind> {
    // The values that the store means, by item.
    ghost values: { Self → List K.Value };

    fn len(&self) -> usize
        ensures { result ≡ length (values self.now) };

    // The number that item i shows, or nothing where i is not below the length.
    fn shown(&self, i: usize) -> Option<i64>
        ensures { result ≡ shown_item K.Kind.number (values self.now) i };

    ghost few: { (s : Self) → length (values s) ≤ 4096 };
}

// A store whose items can be worked on.
pub trait WorkingStore<K: Kind>: ShowingStore<K> {
    // The second store is the first after some works: what lies outside the values that it means is unchanged.
    ghost stays: { Self → Self → Type 0 };

    // Puts the act's new value in item i, leaves all others and answers the act's register.
    // Where i is not below the length it answers nothing and alters nothing.
    fn work(&mut self, i: usize, code: u8, operand: i32, register: i32) -> Option<i32>
        ensures answer { result ≡ register_after K.Kind.acted (Self.ShowingStore.values self.old) i code operand register }
        ensures after { Self.ShowingStore.values self.new ≡ values_after K.Kind.acted (Self.ShowingStore.values self.old) i code operand register }
        ensures outside { stays self.old self.new };

    // No work, and works after works, are works.
    ghost still: { (s : Self) → stays s s };

    ghost chain: { (s t u : Self) → stays s t → stays t u → stays s u };
}
