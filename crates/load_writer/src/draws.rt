// The generator, which holds one number, and what it draws.
ghost use Rattle.std.specs.Prelude.{◌≡◌, ℕ, ◌%◌};
ghost use Rattle.load_writer.specs.Draw.{draw_of};
ghost use Rattle.load_writer.specs.Load.{after, drawn};

use std::marker::Model;

// The generator; contracts see it as the number that it holds.
#[derive(Clone, Copy)]
pub(crate) struct Draws {
    held: u32,
}

impl Model for Draws {
    ghost Value = { ℕ };

    ghost view = { λ d. d.held };

    ghost inverse = { λ n. record { held = n } };
}

impl Draws {
    // Returns a generator that holds the seed.
    pub(crate) fn new(seed: u32) -> Draws
        ensures holds { result ≡ seed }
    {
        Draws { held: seed }
    }

    // Draws: returns the number that the generator then holds.
    #[tactic(auto, unfolding(crate::specs::Draw::draw_of))]
    pub(crate) fn draw(&mut self) -> u32
        ensures drawn { result ≡ draw_of self.old }
        ensures holds { self.new ≡ draw_of self.old }
    {
        let a = self.held ^ (self.held << 13);
        let b = a ^ (a >> 17);
        self.held = b ^ (b << 5);
        self.held
    }

    // Draws a byte, which is a draw modulo 256.
    pub(crate) fn byte(&mut self) -> u8
        ensures drawn { result ≡ draw_of self.old % 256 }
        ensures holds { self.new ≡ draw_of self.old }
    {
        (self.draw() % 256) as u8
    }

    // Draws nine bytes.
    #[tactic(auto, using(crate::proofs::Drawing::drawing))]
    pub(crate) fn nine(&mut self) -> [u8; 9]
        ensures drawn { result ≡ drawn 9 self.old }
        ensures holds { self.new ≡ after 9 self.old }
    {
        let mut bytes = [0; 9];
        for byte in bytes.iter_mut() {
            *byte = self.byte();
        }
        bytes
    }
}
