//! Pixels composed, against the equations that they round.

use pixel_core::{Op, Pixel, compose, mul, on_paper};

/// The W3C's result before any rounding.
#[derive(Clone, Copy)]
struct Exact {
    /// αo in parts of 255 * 255.
    alpha: u64,
    /// co, premultiplied, in parts of 255 * 255 * 255 * 255.
    colour: u64,
}

/// B(cb, cs), in parts of 255 * 255.
fn exact_blend(op: Op, cs: u64, cb: u64) -> u64 {
    match op {
        Op::Multiply => cs.wrapping_mul(cb),
        Op::Screen => (cs.wrapping_add(cb))
            .wrapping_mul(255)
            .wrapping_sub(cs.wrapping_mul(cb)),
        _ => cs.wrapping_mul(255),
    }
}

/// Blending, then simple alpha compositing, step by step as in Compositing and Blending Level 1.
fn compose_exactly(op: Op, cs: u64, sa: u64, cb: u64, ba: u64) -> Exact {
    let not_sa = 255u64.wrapping_sub(sa);
    let not_ba = 255u64.wrapping_sub(ba);
    // Cs = (1 - αb) x Cs + αb x B(Cb, Cs)
    let blended = not_ba
        .wrapping_mul(cs)
        .wrapping_mul(255)
        .wrapping_add(ba.wrapping_mul(exact_blend(op, cs, cb)));
    // co = Cs x αs + Cb x αb x (1 - αs)
    let colour = blended
        .wrapping_mul(sa)
        .wrapping_add(cb.wrapping_mul(255).wrapping_mul(ba).wrapping_mul(not_sa));
    // αo = αs + αb x (1 - αs)
    let alpha = sa.wrapping_mul(255).wrapping_add(ba.wrapping_mul(not_sa));
    Exact { alpha, colour }
}

/// Whether `colour` and `alpha` differ from the exact ones by at most `halves` halves and one half of
/// a 255th. Where nothing covers, both are to be 0.
fn is_near(exact: Exact, colour: u8, alpha: u8, halves: u64) -> bool {
    if exact.alpha == 0 {
        return colour == 0 && alpha == 0;
    }
    let alpha_off = (alpha as u64)
        .wrapping_mul(510)
        .abs_diff(exact.alpha.wrapping_mul(2));
    let unit = exact.alpha.wrapping_mul(255);
    let colour_off = (colour as u64)
        .wrapping_mul(unit)
        .wrapping_mul(2)
        .abs_diff(exact.colour.wrapping_mul(2));
    alpha_off <= 255 && colour_off <= unit.wrapping_mul(halves)
}

const ALPHAS: [u8; 9] = [0, 1, 2, 64, 127, 128, 200, 254, 255];

const COLOURS: [u8; 7] = [0, 1, 100, 127, 128, 200, 255];

/// Whether the colours and alphas of the tables compose as W3C's equations say.
fn are_near(op: Op, sa: u8, da: u8, halves: u64) -> bool {
    COLOURS.iter().all(|&s| {
        COLOURS.iter().all(|&d| {
            let [r, _, _, a] = compose(
                op,
                Pixel::new(s, 0, 0, sa),
                Pixel::new(d, 0, 0, da),
                255,
            ).bytes();
            is_near(
                compose_exactly(op, s as u64, sa as u64, d as u64, da as u64),
                r,
                a,
                halves,
            )
        })
    })
}

#[test]
fn composes_as_w3c(rt: HostRuntime) {
    for (op, halves) in [(Op::Over, 1), (Op::Multiply, 2), (Op::Screen, 2)] {
        for sa in ALPHAS {
            for da in ALPHAS {
                assert!(rt; are_near(op, sa, da, halves));
            }
        }
    }
}

#[test]
fn multiplies(rt: HostRuntime) {
    for (a, b, want) in [
        (1, 127, 0),
        (1, 128, 1),
        (128, 128, 64),
        (255, 77, 77),
        (77, 255, 77),
        (0, 255, 0),
        (255, 255, 255),
    ] {
        assert_eq!(rt; mul(a, b), want);
    }
}

#[test]
fn composes(rt: HostRuntime) {
    for (op, s, d, m, want) in [
        (
            Op::Over,
            [255, 0, 0, 128],
            [255, 255, 255, 255],
            255,
            [255, 127, 127, 255],
        ),
        (
            Op::Over,
            [10, 20, 30, 100],
            [200, 100, 50, 60],
            255,
            [61, 41, 35, 136],
        ),
        (
            Op::Multiply,
            [100, 100, 100, 255],
            [200, 200, 200, 255],
            255,
            [78, 78, 78, 255],
        ),
        (
            Op::Screen,
            [100, 100, 100, 255],
            [200, 200, 200, 255],
            255,
            [222, 222, 222, 255],
        ),
        (
            Op::Addition,
            [100, 100, 100, 255],
            [200, 200, 200, 255],
            255,
            [255, 255, 255, 255],
        ),
        (
            Op::Erase,
            [0, 0, 0, 255],
            [9, 8, 7, 255],
            128,
            [9, 8, 7, 127],
        ),
        (Op::Erase, [0, 0, 0, 255], [9, 8, 7, 127], 255, [0, 0, 0, 0]),
        (
            Op::Screen,
            [1, 2, 3, 255],
            [9, 8, 7, 127],
            0,
            [9, 8, 7, 127],
        ),
    ] {
        let [sr, sg, sb, sa] = s;
        let [dr, dg, db, da] = d;
        let got = compose(
            op,
            Pixel::new(sr, sg, sb, sa),
            Pixel::new(dr, dg, db, da),
            m,
        );
        assert_eq!(rt; got.bytes(), want);
    }
    assert_eq!(rt;
        on_paper(Pixel::new(255, 0, 0, 128), Pixel::new(255, 255, 255, 255)),
        [255, 127, 127]
    );
}
