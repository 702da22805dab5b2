//! The graphics state with its path, and the saved states.

ghost use Rattle.std.specs.Prelude.{◌≡◌, ◌++◌, ◌∷◌, [], IsTrue, IsFalse, OnOk, OnErr, IfOk};
ghost use Rattle.{ps_steps.specs.{Points.current, State.first_graphics}, ps_machine.specs.Pens.{followed}};

use mus_units::{Memory, Row};
use ps_steps::{Number, Seg};
use std::alloc::Global;
use std::marker::Model;

/// A graphics state without the pieces of its path: the index at which its path begins among all pieces, the point of
/// its last Move and its current point; the scale, the origin, the font size and the line width.
#[derive(Drop)]
pub struct PenState {
    first: usize,
    start: (i64, i64),
    end: Option<(i64, i64)>,
    scale: Number,
    x: i64,
    y: i64,
    font: i64,
    line: i64,
}

/// A saved graphics state, and the number of pieces when it was saved.
#[derive(Drop)]
pub struct Saved {
    pen: PenState,
    count: usize,
}

/// The graphics state and the saved ones, with the latest last. The pieces of all their paths are in one list, so
/// saving a state copies no piece: a saved state has the pieces of the time when it was saved, and no piece is
/// removed or changed while a state has it.
#[derive(Drop)]
pub struct Canvas {
    pieces: Vec<Seg>,
    pen: PenState,
    saved: Vec<Saved>,
}

impl Model for Canvas {
    ghost use Rattle.std.specs.Prelude.{reverse};
    ghost use Rattle.ps_machine.specs.Drawing.{GraphicsStack};

    ghost Value = { GraphicsStack };

    ghost use Rattle.ps_machine.specs.Pens.{drawing_of, IsHeld, AreHeld};

    ghost view = { λ c. drawing_of c.pieces.items c.pen (reverse c.saved.items) };

    ghost invariant = { λ c. IsHeld c.pieces.items c.pen × AreHeld c.pieces.items (reverse c.saved.items) };
}

impl Canvas {
    /// Returns the initial graphics state, with nothing saved.
    pub fn new(alloc: Global) -> Canvas
        ensures { result ≡ record { now = first_graphics; saved = [] } }
    {
        Canvas {
            pieces: Vec::new(alloc),
            pen: PenState {
                first: 0,
                start: (0, 0),
                end: None,
                scale: Number::point(),
                x: 0,
                y: 0,
                font: 0,
                line: 1,
            },
            saved: Vec::new(alloc),
        }
    }

    /// Returns the scale.
    pub fn scale(&self) -> &Number
        ensures { result.now ≡ self.now.now.scale }
    {
        &self.pen.scale
    }

    /// Returns the abscissa of the origin.
    pub fn left(&self) -> i64
        ensures { result ≡ self.now.now.x }
    {
        self.pen.x
    }

    /// Returns the ordinate of the origin.
    pub fn bottom(&self) -> i64
        ensures { result ≡ self.now.now.y }
    {
        self.pen.y
    }

    /// Returns the font size.
    pub fn font(&self) -> i64
        ensures { result ≡ self.now.now.font }
    {
        self.pen.font
    }

    /// Returns the line width.
    pub fn line(&self) -> i64
        ensures { result ≡ self.now.now.line }
    {
        self.pen.line
    }

    /// Returns the current point; there is one exactly when the path isn't empty.
    pub fn current(&self) -> Option<(i64, i64)>
        ensures { result ≡ current self.now.now.path }
    {
        self.pen.end
    }

    /// Sets the scale.
    pub fn set_scale(&mut self, scale: Number)
        ensures { self.new ≡ record self.old { now = record self.old.now { scale = scale } } }
    {
        self.pen.scale = scale;
    }

    /// Sets the origin.
    pub fn set_origin(&mut self, x: i64, y: i64)
        ensures { self.new ≡ record self.old { now = record self.old.now { x = x; y = y } } }
    {
        self.pen.x = x;
        self.pen.y = y;
    }

    /// Sets the font size.
    pub fn set_font(&mut self, size: i64)
        ensures { self.new ≡ record self.old { now = record self.old.now { font = size } } }
    {
        self.pen.font = size;
    }

    /// Sets the line width.
    pub fn set_line(&mut self, width: i64)
        ensures { self.new ≡ record self.old { now = record self.old.now { line = width } } }
    {
        self.pen.line = width;
    }

    /// Adds a piece at the end of the path; on an error nothing changes.
    pub fn push(&mut self, piece: Seg) -> Result<(), Memory>
        ensures ok { OnOk result
            (self.new ≡ record self.old { now = record self.old.now { path = self.old.now.path ++ piece ∷ [] } }) }
        ensures err { OnErr result (self.new ≡ self.old) }
    {
        self.pieces.push(piece)?;
        self.pen.follow(piece);
        Ok(())
    }

    /// Empties the path.
    fn clear_path(&mut self)
        ensures { self.new ≡ record self.old { now = record self.old.now { path = [] } } }
    {
        self.pen.first = self.pieces.len();
        self.pen.start = (0, 0);
        self.pen.end = None;
    }

    /// Returns the pieces of the path and empties it.
    pub fn take_path(&mut self, alloc: Global) -> Result<Row<Seg>, Memory>
        ensures path { IfOk result (λ path. path ≡ self.old.now.path) }
        ensures rest { OnOk result (self.new ≡ record self.old { now = record self.old.now { path = [] } }) }
    {
        let path = Row::from_slice(alloc, &self.pieces[self.pen.first..])?;
        self.clear_path();
        Ok(path)
    }

    /// Saves the graphics state; on an error nothing changes.
    pub fn save(&mut self) -> Result<(), Memory>
        ensures { OnOk result (self.new ≡ record self.old { saved = self.old.now ∷ self.old.saved }) }
    {
        let count = self.pieces.len();
        let pen = self.pen.same();
        self.saved.push(Saved { pen, count })?;
        Ok(())
    }

    /// Restores the graphics state that was saved last; returns `false` if none is saved.
    pub fn restore(&mut self) -> bool
        ensures some { IsTrue result → self.old.saved ≡ self.new.now ∷ self.new.saved }
        ensures none { IsFalse result → self.old.saved ≡ [] }
    {
        match self.saved.pop() {
            Some(Saved { pen, count }) => {
                self.pieces.truncate(count);
                self.pen = pen;
                true
            }
            None => false,
        }
    }
}

impl PenState {
    /// Moves the current point after a piece was added to the path: to the end of the piece, or after a Close to the
    /// point of the last Move.
    fn follow(&mut self, piece: Seg)
        ensures { self.new ≡ followed self.old piece }
    {
        match piece {
            Seg::Move(x, y) => {
                self.start = (x, y);
                self.end = Some((x, y));
            }
            Seg::Line(x, y) => self.end = Some((x, y)),
            Seg::Curve(_, _, _, _, x, y) => self.end = Some((x, y)),
            Seg::Close => self.end = Some(self.start),
        }
    }

    /// Returns a copy.
    fn same(&self) -> PenState
        ensures { result ≡ self.now }
    {
        PenState {
            first: self.first,
            start: self.start,
            end: self.end,
            scale: self.scale.same(),
            x: self.x,
            y: self.y,
            font: self.font,
            line: self.line,
        }
    }
}
