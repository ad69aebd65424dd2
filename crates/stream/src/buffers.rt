// A program's own buffers, of which a request is lent parts: of each the places at its front.
ghost use Rattle.std.specs.Prelude.{◌≡◌};

use crate::patterns::fill;
use crate::requests::Lengths;
use crate::sink::Sink;

#[derive(Drop)]
pub struct Buffers<'a> {
    pub positions: &'a mut [f32],
    pub normals: &'a mut [f32],
    pub tags: &'a mut [u32],
    pub triangles: &'a mut [u32],
    pub tubes: &'a mut [u32],
    pub boxes: &'a mut [f32],
    pub words: &'a mut [u32],
    pub floats: &'a mut [f32],
}

impl Buffers<'_> {
    ghost use Rattle.stream.specs.Buffers.{lengths};
    ghost use Rattle.stream.specs.Requests.{Within};

    pub fn lengths(&self) -> Lengths
        ensures { result ≡ lengths self.now }
    {
        Lengths {
            positions: self.positions.len(),
            normals: self.normals.len(),
            tags: self.tags.len(),
            triangles: self.triangles.len(),
            tubes: self.tubes.len(),
            boxes: self.boxes.len(),
            words: self.words.len(),
            floats: self.floats.len(),
        }
    }

    // The lent scratch as it is before every call.
    pub fn fill_scratch(&mut self, lent: Lengths)
        requires { Within lent (lengths self.old) }
        ensures { lengths self.new ≡ lengths self.old }
    {
        fill(&mut self.words[..lent.words]);
        fill(&mut self.floats[..lent.floats]);
    }

    // All lent buffers as they are before every call.
    pub fn fill(&mut self, lent: Lengths)
        requires { Within lent (lengths self.old) }
        ensures { lengths self.new ≡ lengths self.old }
    {
        fill(&mut self.positions[..lent.positions]);
        fill(&mut self.normals[..lent.normals]);
        fill(&mut self.tags[..lent.tags]);
        fill(&mut self.triangles[..lent.triangles]);
        fill(&mut self.tubes[..lent.tubes]);
        fill(&mut self.boxes[..lent.boxes]);
        self.fill_scratch(lent);
    }

    pub fn send_scratch(&self, lent: Lengths, s: &mut Sink)
        requires { Within lent (lengths self.now) }
    {
        s.send(&self.words[..lent.words]);
        s.send(&self.floats[..lent.floats]);
    }

    pub fn send(&self, lent: Lengths, s: &mut Sink)
        requires { Within lent (lengths self.now) }
    {
        s.send(&self.positions[..lent.positions]);
        s.send(&self.normals[..lent.normals]);
        s.send(&self.tags[..lent.tags]);
        s.send(&self.triangles[..lent.triangles]);
        s.send(&self.tubes[..lent.tubes]);
        s.send(&self.boxes[..lent.boxes]);
        self.send_scratch(lent, s);
    }
}
