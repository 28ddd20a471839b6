// A path beside an open end is stored as it is, or zeros in its place.
use crate::range_record;
use grouping::{RangeEnd, TimeRange};
use range_3d::{Range3dHead, SubspaceRange};

#[test]
fn path_beside_an_open_end(rt: HostRuntime) {
    let head = Range3dHead {
        subspaces: SubspaceRange {
            start: [0; 32],
            end: None,
        },
        end_open: true,
        times: TimeRange {
            start: 0,
            end: RangeEnd::Open,
        },
    };
    let start = [0; path::lent::SIZE];
    let mut end = start;
    end[0] = 1;
    let mut flat = [0xee; range_record::SIZE];
    range_record::store_range(&mut flat, head, &start, &end);
    assert!(rt; range_record::load(&flat).is_ok_and(|range| range.paths.end.is_none()));
    range_record::store(&mut flat, head, &start, &end);
    assert!(rt; range_record::load(&flat).is_err());
}
