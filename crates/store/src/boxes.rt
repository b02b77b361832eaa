// The boxes' bodies, each into its row.
ghost use Rattle.std.specs.Prelude.{◌≡◌, [], ◌*◌, ◌≤◌, length};
ghost use Rattle.rules.specs.Sizes.{most_boxes, most_loads};
ghost use Rattle.row.specs.Row.{box_of, row_width};
ghost use Rattle.cells.specs.Cells.{chain, Many, Has};
ghost use Rattle.cells.specs.Stored.{HoldsRows, StoredIs};
ghost use Rattle.image.specs.Image.{box_body};
ghost use Rattle.image.specs.Parts.{SomeBox};
ghost use Rattle.store.specs.Store.{HasBox, HoldsBox};

// The words of a box of n go into its row; those of peers above n say that they are unknown.
fn read_box(src: &[u8], at: usize, n: u32, j: u32, row: &mut [u64]) -> usize
    requires n_le_most_boxes { (n ≤ most_boxes) × (j ≤ most_loads) }
    requires row_len { length row.old ≡ row_width j }
    requires has { Has (box_body n) (SomeBox n j) src.now at }
    ensures { StoredIs (box_body n) (SomeBox n j) src.now at (HasBox row.new) result }
{
    let groups = image::box_groups(n as usize);
    cells::get_headed(src, at, &groups, row::HEAD, row::COUNT, row::UNKNOWN, row)
}

// A box of n goes into its row, with the index of its agreed records, which no image has.
fn store_box(src: &[u8], at: usize, n: u32, j: u32, row: &mut [u64]) -> usize
    requires n_le_most_boxes { (n ≤ most_boxes) × (j ≤ most_loads) }
    requires row_len { length row.old ≡ row_width j }
    requires has { Has (box_body n) (SomeBox n j) src.now at }
    ensures { StoredIs (box_body n) (SomeBox n j) src.now at
        (HoldsBox n j row.new) result }
{
    let end = read_box(src, at, n, j, row);
    row::build(row, j);
    end
}

// The n boxes go into the first n rows.
pub fn store_boxes(src: &[u8], at: usize, n: u32, j: u32, rows: &mut [u64]) -> usize
    requires n_le_most_boxes { (n ≤ most_boxes) × (j ≤ most_loads) }
    requires j_in_bounds { n * row_width j ≤ length rows.old }
    requires has { Has (chain (box_body n)) (Many (λ i. SomeBox n j) n) src.now at }
    ensures { StoredIs (chain (box_body n)) (Many (λ i. SomeBox n j) n) src.now at
        (HoldsRows (HoldsBox n j) (row_width j) n (box_of n []) rows.old
        rows.new) result }
{
    let w = row::row_width(j);
    let count = n as usize;
    let mut p = at;
    // By index and not by chunks: there may be words behind these rows.
    for i in 0..count {
        let a = words::row_at(i, w, count);
        p = store_box(src, p, n, j, &mut rows[a..a + w]);
    }
    p
}
