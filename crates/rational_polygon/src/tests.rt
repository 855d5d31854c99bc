use crate::{GridBox, Polygon, PolygonFault, Region, RegionFault};
use rat_core::Frac;
use std::alloc::{AllocError, Global};
use std::test::Fail;

// The corner in the right angle is (1/4, 1/4), and the longest edge lies on x + y = 3/4.
const RIGHT: [(u32, u32); 3] = [(16, 16), (32, 16), (16, 32)];

const SIXTEEN: [(u32, u32); 16] = [
    (21, 11),
    (25, 12),
    (28, 14),
    (30, 17),
    (31, 21),
    (30, 25),
    (28, 28),
    (25, 30),
    (21, 31),
    (17, 30),
    (14, 28),
    (12, 25),
    (11, 21),
    (12, 17),
    (14, 14),
    (17, 12),
];

fn fault_of(
    alloc: Global,
    grid: u32,
    corners: &[(u32, u32)],
) -> Result<Option<PolygonFault>, AllocError> {
    Ok(Polygon::new(grid, corners.to_vec(alloc)?).err())
}

#[test]
fn refuses_what_is_not_convex(rt: HostRuntime) -> Result<(), Fail> {
    let alloc = rt.alloc();
    let clockwise = [(127, 127), (127, 128), (128, 127)];
    assert_eq!(rt;
        fault_of(alloc, 384, &clockwise)?,
        Some(PolygonFault::Turn { i: 1, j: 3 })
    );

    let collinear = [(100, 100), (110, 100), (120, 100), (110, 110)];
    assert_eq!(rt;
        fault_of(alloc, 384, &collinear)?,
        Some(PolygonFault::Turn { i: 1, j: 3 })
    );

    let pentagram = [(110, 100), (124, 110), (106, 110), (120, 100), (115, 118)];
    assert_eq!(rt;
        fault_of(alloc, 384, &pentagram)?,
        Some(PolygonFault::Turn { i: 1, j: 4 })
    );

    let repeated = [(100, 100), (110, 100), (110, 110), (100, 100)];
    assert_eq!(rt;
        fault_of(alloc, 384, &repeated)?,
        Some(PolygonFault::Turn { i: 1, j: 4 })
    );
    Ok(())
}

#[test]
fn refuses_grids_counts_and_corners_in_this_order(rt: HostRuntime) -> Result<(), Fail> {
    let alloc = rt.alloc();
    assert_eq!(rt; fault_of(alloc, 0, &[])?, Some(PolygonFault::Grid));
    assert_eq!(rt;
        fault_of(alloc, 1_048_577, &RIGHT)?,
        Some(PolygonFault::Grid)
    );
    assert_eq!(rt;
        fault_of(alloc, 64, &SIXTEEN[..2])?,
        Some(PolygonFault::Count)
    );
    assert_eq!(rt;
        fault_of(alloc, 1, &[(1, 1), (2, 1), (1, 2)])?,
        Some(PolygonFault::Corner { i: 1 })
    );
    assert_eq!(rt;
        fault_of(alloc, 3, &[(1, 1), (2, 1), (1, 2)])?,
        Some(PolygonFault::Corner { i: 2 })
    );
    assert_eq!(rt;
        fault_of(alloc, 384, &[(127, 127), (127, 0), (0, 127)])?,
        Some(PolygonFault::Corner { i: 2 })
    );
    Ok(())
}

#[test]
fn takes_sixteen_corners_and_the_finest_grid(rt: HostRuntime) -> Result<(), Fail> {
    let alloc = rt.alloc();
    let round = Polygon::new(64, SIXTEEN.to_vec(alloc)?)?;
    assert_eq!(rt; round.grid(), 64);
    assert_eq!(rt; round.corners(), SIXTEEN.as_slice());
    assert_eq!(rt;
        fault_of(alloc, 1_048_576, &[(1, 1), (1_048_574, 1), (1, 1_048_574)])?,
        None
    );
    Ok(())
}

#[test]
fn holds_its_closed_inside(rt: HostRuntime) -> Result<(), Fail> {
    let polygon = Polygon::new(64, RIGHT.to_vec(rt.alloc())?)?;
    // Corners, points on two edges, and points inside, the last just left of the longest edge.
    assert!(rt; polygon.holds(Frac::new(1, 4), Frac::new(1, 4)));
    assert!(rt; polygon.holds(Frac::new(2, 4), Frac::new(1, 4)));
    assert!(rt; polygon.holds(Frac::new(3, 8), Frac::new(3, 8)));
    assert!(rt; polygon.holds(Frac::new(5, 16), Frac::new(1, 4)));
    assert!(rt; polygon.holds(Frac::new(1, 3), Frac::new(1, 3)));
    assert!(rt; polygon.holds(Frac::new(786_431, 2_097_152), Frac::new(3, 8)));

    assert!(rt; !polygon.holds(Frac::new(786_433, 2_097_152), Frac::new(3, 8)));
    assert!(rt; !polygon.holds(Frac::new(15, 64), Frac::new(5, 16)));
    assert!(rt; !polygon.holds(Frac::new(-1, 4), Frac::new(1, 4)));
    Ok(())
}

#[test]
fn touching_is_not_apart(rt: HostRuntime) -> Result<(), Fail> {
    let polygon = Polygon::new(64, RIGHT.to_vec(rt.alloc())?)?;
    // In a corner of the polygon, along an edge, in a corner of the box, in two corners at the greatest level, and over the whole polygon.
    assert!(rt;
        !GridBox {
            i: 32,
            j: 15,
            level: 6
        }
        .apart(&polygon)
    );
    assert!(rt;
        !GridBox {
            i: 20,
            j: 15,
            level: 6
        }
        .apart(&polygon)
    );
    assert!(rt;
        !GridBox {
            i: 24,
            j: 24,
            level: 6
        }
        .apart(&polygon)
    );
    assert!(rt;
        !GridBox {
            i: 262_143,
            j: 262_143,
            level: 20
        }
        .apart(&polygon)
    );
    assert!(rt;
        !GridBox {
            i: 0,
            j: 0,
            level: 0
        }
        .apart(&polygon)
    );
    Ok(())
}

#[test]
fn one_step_beyond_is_apart(rt: HostRuntime) -> Result<(), Fail> {
    let polygon = Polygon::new(64, RIGHT.to_vec(rt.alloc())?)?;
    assert!(rt;
        GridBox {
            i: 33,
            j: 15,
            level: 6
        }
        .apart(&polygon)
    );
    assert!(rt;
        GridBox {
            i: 20,
            j: 14,
            level: 6
        }
        .apart(&polygon)
    );
    assert!(rt;
        GridBox {
            i: 25,
            j: 24,
            level: 6
        }
        .apart(&polygon)
    );
    assert!(rt;
        GridBox {
            i: 262_142,
            j: 262_143,
            level: 20
        }
        .apart(&polygon)
    );
    Ok(())
}

#[test]
fn children_and_centres(rt: HostRuntime) {
    let root = GridBox::default();
    let lower_right = root.child(1);
    assert_eq!(rt;
        lower_right,
        GridBox {
            i: 1,
            j: 0,
            level: 1
        }
    );
    assert_eq!(rt;
        lower_right.child(2),
        GridBox {
            i: 2,
            j: 1,
            level: 2
        }
    );
    let (x, y) = lower_right.centre();
    assert_eq!(rt; (x.num(), x.den()), (3, 4));
    assert_eq!(rt; (y.num(), y.den()), (1, 4));
}

// The fault of a region of so many right triangles, each on the grid of its place.
fn region_fault_of(alloc: Global, grids: &[u32]) -> Result<Option<RegionFault>, Fail> {
    let mut polygons = Vec::new(alloc);
    for grid in grids {
        polygons.push(Polygon::new(*grid, RIGHT.to_vec(alloc)?)?)?;
    }
    Ok(Region::new(polygons).err())
}

#[test]
fn regions_have_1_to_8_polygons_on_one_grid(rt: HostRuntime) -> Result<(), Fail> {
    let alloc = rt.alloc();
    assert_eq!(rt; region_fault_of(alloc, &[])?, Some(RegionFault::Count));
    assert_eq!(rt; region_fault_of(alloc, &[64])?, None);
    assert_eq!(rt; region_fault_of(alloc, &[64; 8])?, None);
    assert_eq!(rt; region_fault_of(alloc, &[64; 9])?, Some(RegionFault::Count));
    assert_eq!(rt;
        region_fault_of(alloc, &[64, 64, 65, 66])?,
        Some(RegionFault::Grid { i: 3 })
    );
    Ok(())
}

#[test]
fn a_region_is_the_union_of_its_polygons(rt: HostRuntime) -> Result<(), Fail> {
    let alloc = rt.alloc();
    let far = [(36, 8), (40, 8), (36, 12)];
    let mut polygons = Vec::new(alloc);
    polygons.push(Polygon::new(64, RIGHT.to_vec(alloc)?)?)?;
    polygons.push(Polygon::new(64, far.to_vec(alloc)?)?)?;
    let region = Region::new(polygons)?;
    assert_eq!(rt; region.polygons().len(), 2);
    assert!(rt; region.holds(Frac::new(1, 4), Frac::new(1, 4)));
    assert!(rt; region.holds(Frac::new(9, 16), Frac::new(1, 8)));
    assert!(rt; !region.holds(Frac::new(17, 32), Frac::new(1, 4)));

    // In the first, in the second, and between the two.
    let in_first = GridBox {
        i: 20,
        j: 20,
        level: 6,
    };
    let in_second = GridBox {
        i: 37,
        j: 8,
        level: 6,
    };
    let between = GridBox {
        i: 33,
        j: 13,
        level: 6,
    };
    assert!(rt; !in_first.apart_region(&region));
    assert!(rt; !in_second.apart_region(&region));
    assert!(rt; between.apart_region(&region));
    Ok(())
}
