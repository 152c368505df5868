// The OBJ lines of a block: its group, its eight vertices and its six faces.
ghost use Rattle.std.specs.Prelude.{◌≡◌, ◌≤◌};
ghost use Rattle.sinks.specs.Meaning.{limit};
ghost use Rattle.texts.specs.Lines.{up_to};
ghost use Rattle.texts.specs.Drawings.{end_on, vertex_line, faces, numbered_face, face_line, block_text};

use crate::line::LineKind;
use crate::lines::put_line;
use crate::out::Out;
use crate::writing::Text;
use geometry::block::Block;
use geometry::cuboid::Cuboid;
use geometry::span::Span;

// The low or the high end of a stretch.
fn end_on(high: bool, span: Span) -> u64
    ensures { result ≡ end_on high span }
{
    if high {
        (span.at.0 + span.size.0) as u64
    } else {
        span.at.0 as u64
    }
}

// Puts the line of a vertex.
fn put_vertex<W: Out>(out: &mut W, cuboid: Cuboid, v: u32)
    requires { W.fits out.old (vertex_line cuboid v) }
    ensures { W.wrote out.old (vertex_line cuboid v) out.new }
{
    let x = end_on(v % 2 == 1, cuboid.x);
    let y = end_on(v / 2 % 2 == 1, cuboid.y);
    let z = end_on(v >= 4, cuboid.z);
    put_line(out, LineKind::Vertex, x, &[y, z]);
}

fn put_vertices<W: Out>(out: &mut W, cuboid: Cuboid)
    requires { W.fits out.old (up_to (vertex_line cuboid) 8) }
    ensures { W.wrote out.old (up_to (vertex_line cuboid) 8) out.new }
{
    for v in 0..8 {
        put_vertex(out, cuboid, v);
    }
}

// The vertices of each face, counted from 1.
fn faces() -> [[u8; 4]; 6]
    ensures { result ≡ faces }
{
    [
        [1, 3, 4, 2],
        [5, 6, 8, 7],
        [1, 2, 6, 5],
        [3, 7, 8, 4],
        [1, 5, 7, 3],
        [2, 4, 8, 6],
    ]
}

// Puts the line of a face after so many drawn blocks.
fn put_face<W: Out>(out: &mut W, drawn: u64, face: [u8; 4])
    requires small { drawn ≤ limit }
    requires fits { W.fits out.old (numbered_face drawn face) }
    ensures { W.wrote out.old (numbered_face drawn face) out.new }
{
    let before = 8 * drawn;
    let at = |vertex: u8| u64::from(vertex) + before;
    let [a, b, c, d] = face;
    put_line(out, LineKind::Face, at(a), &[at(b), at(c), at(d)]);
}

fn put_faces<W: Out>(out: &mut W, drawn: u64)
    requires small { drawn ≤ limit }
    requires fits { W.fits out.old (up_to (face_line drawn) 6) }
    ensures { W.wrote out.old (up_to (face_line drawn) 6) out.new }
{
    for face in faces() {
        put_face(out, drawn, face);
    }
}

// The lines of a block after so many drawn ones.
#[derive(Clone, Copy)]
pub(crate) struct BlockLines {
    pub(crate) drawn: u64,
    pub(crate) block: Block,
    ghost few: { drawn ≤ limit },
}

impl Text for BlockLines {
    ghost text = { λ s. block_text s.drawn s.block };

    fn put<W: Out>(&self, out: &mut W) {
        let block = self.block;
        if block.material > 0 {
            put_line(out, LineKind::Group, block.material as u64, &[]);
            put_vertices(out, block.cuboid);
            put_faces(out, self.drawn);
        }
    }
}
