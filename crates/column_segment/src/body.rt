use cs_base::Items;
use segment_dict::Dict;
use segment_rle::Runs;
use segment_value::Scale;

/// The codes of a segment's cells, and what turns them back into cells.
#[derive(Debug, Drop)]
pub enum SegmentBody {
    /// Codes of a scale, packed.
    ValuePacked {
        /// The exponent and the base.
        scale: Scale,
        /// Bits a code, 0 to 64: the least width with room for each code.
        width: u32,
        /// The packed words.
        codes: Items<u64>,
    },
    /// Codes of a scale, in runs.
    ValueRuns {
        /// The exponent and the base.
        scale: Scale,
        /// The maximal runs of equal codes.
        runs: Runs,
    },
    /// Codes of a dictionary, packed.
    DictPacked {
        /// The distinct cells.
        dict: Dict,
        /// Bits a code, 0 to 64: the least width with room for each code.
        width: u32,
        /// The packed words.
        codes: Items<u64>,
    },
    /// Codes of a dictionary, in runs.
    DictRuns {
        /// The distinct cells.
        dict: Dict,
        /// The maximal runs of equal codes.
        runs: Runs,
    },
}
