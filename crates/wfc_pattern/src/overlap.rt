//! Windows that overlap.
ghost use Rattle.std.specs.Prelude.{◌≡◌, ◌+◌, ◌*◌, ◌<◌, ◌≤◌, ◌↔◌, length, IsTrue};
ghost use Rattle.wfc_pattern.specs.Agreement.{Agrees, IsOverlap};

/// Whether `q`, moved by one step in the direction, equals `p` where they overlap.
pub fn agree(p: &[u32], q: &[u32], n: usize, dir: u8) -> bool
    requires p { length p.now ≡ n * n }
    requires q { length q.now ≡ n * n }
    requires n { 0 < n }
    requires dir { dir < 4 }
    ensures exact { IsTrue result ↔ Agrees n p.now q.now dir }
{
    match dir {
        0 => overlaps(q, p, n, 1, 0),
        1 => overlaps(p, q, n, 0, 1),
        2 => overlaps(p, q, n, 1, 0),
        _ => overlaps(q, p, n, 0, 1),
    }
}

/// Whether `p` without its first columns and rows is `q` without its last ones. A window has `n` columns and rows.
fn overlaps(p: &[u32], q: &[u32], n: usize, columns: usize, rows: usize) -> bool
    requires p { length p.now ≡ n * n }
    requires q { length q.now ≡ n * n }
    requires columns { columns ≤ n }
    requires rows { rows ≤ n }
    ensures exact { IsTrue result ↔ IsOverlap n p.now q.now columns rows }
{
    for row in 0..n - rows {
        let right = (row + rows) * n + columns;
        let left = row * n;
        let length = n - columns;
        if p[right..right + length] != q[left..left + length] {
            return false;
        }
    }
    true
}
