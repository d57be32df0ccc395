// Laws of segments. Each function here does nothing: its contract is a law that is proved.
ghost use Rattle.std.specs.Prelude.{◌≡◌, ℕ};
ghost use Rattle.std.specs.Ordering.{nat_cmp};
ghost use Rattle.cs_types.specs.Values.{value_cmp};
ghost use Rattle.column_segment.specs.declared.body.SegmentBody.{SegmentBody};
ghost use Rattle.column_segment.specs.Bodies.{cell_of_code, IsKnown};

/// Of two codes that a segment knows, the cells compare as the codes do, NULL's code 0 included. So two codes of one cell
/// are one.
pub fn codes_in_order()
    ensures order { (body : SegmentBody) (code other : ℕ) → IsKnown body code → IsKnown body other → nat_cmp code other ≡ value_cmp (cell_of_code body code) (cell_of_code body other) }
    ensures same { (body : SegmentBody) (code other : ℕ) → IsKnown body code → IsKnown body other → cell_of_code body code ≡ cell_of_code body other → code ≡ other }
{}
