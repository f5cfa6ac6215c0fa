// The game, ported from game.rs: its types, the table of lines, and a position in words that moves are made on.

#![tactic(auto)]

ghost use Rattle.std.specs.Prelude.{◌≡◌, cond, not, ◌&&◌, ◌+◌, ◌-◌, ◌*◌, ◌^◌, ◌<◌, ◌≤◌, IfOk, length, get_or, eqb, ltb};
ghost use Rattle.rules.specs.Rules.{Position, board_states, game_state, board_of, cell_of, move_of, leads, move_error, code};
ghost use Rattle.game.specs.Numbers.{player_number, cell_number, state_number, result_number};
ghost use Rattle.game.specs.Masks.{has_bit, mask_of, nonzero};
ghost use Rattle.game.specs.Lines.{line_in};
ghost use Rattle.game.specs.Words.{Holds, Held};
ghost use Rattle.game.specs.Errors.{cell_error};
ghost use Rattle.game.specs.Moves.{Movable, Moved, Planned, Tried, stored};

pub mod cursor;
mod table;

#[derive(Clone, Copy, PartialEq, Eq)]
pub enum Player {
    X,
    O,
}

impl Player {
    pub fn as_bit(self) -> usize
        ensures { result ≡ player_number self }
    {
        match self {
            Player::X => 0,
            Player::O => 1,
        }
    }
}

#[derive(Clone, Copy, PartialEq, Eq)]
pub enum CellState {
    Empty,
    Played(Player),
}

#[derive(Clone, Copy, PartialEq, Eq)]
pub enum GameState {
    InPlay,
    Drawn,
    Won(Player),
}

impl GameState {
    pub fn terminal(self) -> bool
        ensures { result ≡ not (eqb (state_number self) 0) }
    {
        matches!(self, GameState::Drawn | GameState::Won(_))
    }
}

// A move: board in the high four bits, cell in the low four.
#[derive(Clone, Copy, PartialEq, Eq)]
pub struct Move(pub u8);

impl Move {
    pub fn from_coords(global: usize, local: usize) -> Self
        requires { (global < 9) × (local < 9) }
        ensures { result.0 ≡ move_of global local }
    {
        Move((global * 16 + local) as u8)
    }

    pub fn global(self) -> usize
        ensures { (result ≡ board_of self.0) × (result < 16) }
    {
        (self.0 / 16) as usize
    }

    pub fn local(self) -> usize
        ensures { (result ≡ cell_of self.0) × (result < 16) }
    {
        (self.0 % 16) as usize
    }

    // No move: what a root's node holds.
    pub fn none() -> Self
        ensures { result.0 ≡ 255 }
    {
        Move(255)
    }
}

#[derive(Clone, Copy, PartialEq, Eq)]
pub enum MoveError {
    OutOfBounds,
    GameOver,
    WonBoard,
    WrongBoard,
    NotEmpty,
}

// Whether nine bits hold a line. It serves boards and the game.
pub fn line(bits: u16) -> bool
    requires { bits < 512 }
    ensures { result ≡ line_in bits }
{
    table::LINE[bits as usize] == 1
}

// Bit c alone.
pub fn bit(c: usize) -> u16
    requires { c < 9 }
    ensures { (result ≡ 2 ^ c) × (result ≤ 256) }
{
    1 << c
}

// Bit c of a mask.
pub fn has(mask: u16, c: usize) -> bool
    requires { c < 16 }
    ensures { result ≡ has_bit mask c }
{
    (mask >> c) % 2 == 1
}

// Words and base are parameters, and Held stands in each contract: the positions of a line change in one lent array between two reads, so a view of a position with
// an invariant would have to be made anew at each read.

// The target: 0 to 8 a board, 15 free choice.
pub fn target(words: &[u16], base: usize) -> u16
    requires { Held words.now base }
    ensures { result ≡ get_or words.now (base + 21) 0 }
{
    words[base + 21]
}

// The side to move, 0 X, 1 O.
#[tactic(auto, using(crate::specs::Words::side_lt))]
pub fn side_to_move(words: &[u16], base: usize) -> usize
    requires { Held words.now base }
    ensures { (result ≡ get_or words.now (base + 22) 0) × (result < 2) }
{
    words[base + 22] as usize
}

// The cells of one side on board b, nine bits.
#[tactic(auto, using(crate::specs::Words::cells_small))]
pub fn player_bits(words: &[u16], base: usize, side: usize, b: usize) -> u16
    requires { Held words.now base × (side < 2) × (b < 9) }
    ensures { (result ≡ get_or words.now (base + (side * 9 + b)) 0) × (result < 512) }
{
    words[base + (side * 9 + b)]
}

// The boards that one side has won, nine bits.
#[tactic(auto, using(crate::specs::Words::won_small))]
pub fn won_bits(words: &[u16], base: usize, side: usize) -> u16
    requires { Held words.now base × (side < 2) }
    ensures { (result ≡ get_or words.now (base + (18 + side)) 0) × (result < 512) }
{
    words[base + (18 + side)]
}

// The drawn boards, nine bits.
#[tactic(auto, using(crate::specs::Words::drawn_lt))]
pub fn drawn_bits(words: &[u16], base: usize) -> u16
    requires { Held words.now base }
    ensures { (result ≡ get_or words.now (base + 20) 0) × (result < 512) }
{
    words[base + 20]
}

// The boards that are won or drawn.
#[tactic(auto, using(crate::specs::Words::done_is))]
pub fn done_bits(words: &[u16], base: usize) -> u16
    requires { Held words.now base }
    ensures { (p : Position) → Holds p words.now base → result ≡ mask_of nonzero (board_states p.cells) }
{
    won_bits(words, base, 0) + won_bits(words, base, 1) + drawn_bits(words, base)
}

#[tactic(auto, using(crate::specs::Words::in_play_is))]
pub fn in_play(words: &[u16], base: usize, b: usize) -> bool
    requires { Held words.now base × (b < 9) }
    ensures { (p : Position) → Holds p words.now base → result ≡ eqb (code (board_states p.cells) b) 0 }
{
    !has(done_bits(words, base), b)
}

pub fn game_state(words: &[u16], base: usize) -> GameState
    requires { Held words.now base }
    ensures { (p : Position) → Holds p words.now base → state_number result ≡ game_state p }
{
    if line(won_bits(words, base, 0)) {
        return GameState::Won(Player::X);
    }
    if line(won_bits(words, base, 1)) {
        return GameState::Won(Player::O);
    }
    if done_bits(words, base) == 511 {
        return GameState::Drawn;
    }
    GameState::InPlay
}

// The cell c of board b.
pub fn at(words: &[u16], base: usize, b: usize, c: usize) -> CellState
    requires { Held words.now base × (b < 9) × (c < 9) }
    ensures { (p : Position) → Holds p words.now base → cell_number result ≡ code p.cells (b * 9 + c) }
{
    if has(player_bits(words, base, 0, b), c) {
        return CellState::Played(Player::X);
    }
    if has(player_bits(words, base, 1, b), c) {
        return CellState::Played(Player::O);
    }
    CellState::Empty
}

// Whether both halves of a move's byte are 0 to 8.
pub fn in_bounds(m: Move) -> bool
    ensures { result ≡ (ltb (board_of m.0) 9 && ltb (cell_of m.0) 9) }
{
    matches!(m.global(), 0..=8) && matches!(m.local(), 0..=8)
}

// Whether the target lets its side play on board b.
pub fn led_to(target: u16, b: usize) -> bool
    requires { b < 9 }
    ensures { result ≡ leads target b }
{
    match target {
        0..=8 => target as usize == b,
        15 => true,
        _ => false,
    }
}

// The errors that a cell of a game in play can have: WonBoard, WrongBoard, NotEmpty, in this order.
fn check_cell(words: &[u16], base: usize, b: usize, c: usize) -> Result<(), MoveError>
    requires { Held words.now base × (b < 9) × (c < 9) }
    ensures { (p : Position) → Holds p words.now base → result_number result ≡ cell_error p b c }
{
    if !in_play(words, base, b) {
        return Err(MoveError::WonBoard);
    }
    if !led_to(target(words, base), b) {
        return Err(MoveError::WrongBoard);
    }
    match at(words, base, b, c) {
        CellState::Empty => Ok(()),
        CellState::Played(_) => Err(MoveError::NotEmpty),
    }
}

// The first of the five errors, or Ok.
#[tactic(auto, using(crate::specs::Errors::error_out, crate::specs::Errors::error_over, crate::specs::Errors::error_cell))]
pub fn check_move(words: &[u16], base: usize, m: Move) -> Result<(), MoveError>
    requires { Held words.now base }
    ensures { (p : Position) → Holds p words.now base → result_number result ≡ move_error p m.0 }
{
    if !in_bounds(m) {
        return Err(MoveError::OutOfBounds);
    }
    if game_state(words, base).terminal() {
        return Err(MoveError::GameOver);
    }
    check_cell(words, base, m.global(), m.local())
}

// What a board's end adds to the masks of boards: its own bit, won or drawn, or nothing.
#[derive(Clone, Copy)]
pub struct BoardEnd {
    pub won: u16,
    pub drawn: u16,
}

// The end of a board, from the mover's cells on it after the move, the other side's, and its bit.
fn end_of_board(mine: u16, theirs: u16, own: u16) -> BoardEnd
    requires { (mine < 512) × (theirs < 512) }
    ensures { (result.won ≡ cond (line_in mine) own 0) × (result.drawn ≡ cond (line_in mine) 0 (cond (eqb (mine + theirs) 511) own 0)) × (result.won + result.drawn ≤ own) }
{
    if line(mine) {
        return BoardEnd { won: own, drawn: 0 };
    }
    if mine + theirs == 511 {
        return BoardEnd { won: 0, drawn: own };
    }
    BoardEnd { won: 0, drawn: 0 }
}

// The reply's target: the board numbered as the cell just played, if it is not done, and otherwise free choice.
fn target_after(done: u16, c: usize) -> u16
    requires { c < 9 }
    ensures { result ≡ cond (has_bit done c) 15 c }
{
    if has(done, c) { 15 } else { c as u16 }
}

// What a move stores: the mover's side and cells of the board, the boards that it has won, the drawn boards, and the reply's target.
#[derive(Clone, Copy)]
pub struct Stores {
    pub side: usize,
    pub mine: u16,
    pub won: u16,
    pub drawn: u16,
    pub target: u16,
}

// What a legal move stores.
#[tactic(auto, using(crate::specs::Moves::mine_small, crate::specs::Words::done_lt))]
fn plan_move(words: &[u16], base: usize, m: Move) -> Stores
    requires { Movable words.now base m.0 }
    ensures { Planned words.now base m.0 result.side result.mine result.won result.drawn result.target }
{
    let b = m.global();
    let c = m.local();
    let side = side_to_move(words, base);
    let mine = player_bits(words, base, side, b) + bit(c);
    let theirs = player_bits(words, base, 1 - side, b);
    let end = end_of_board(mine, theirs, bit(b));
    let done = done_bits(words, base) + (end.won + end.drawn);
    Stores {
        side,
        mine,
        won: won_bits(words, base, side) + end.won,
        drawn: drawn_bits(words, base) + end.drawn,
        target: target_after(done, c),
    }
}

// Stores them, and passes the turn.
fn store_move(words: &mut [u16], base: usize, b: usize, s: Stores)
    requires { (base + 23 ≤ length words.old) × (s.side < 2) × (b < 9) }
    ensures { words.new ≡ stored words.old base s.side b s.mine s.won s.drawn s.target (1 - s.side) }
{
    words[base + (s.side * 9 + b)] = s.mine;
    words[base + (18 + s.side)] = s.won;
    words[base + 20] = s.drawn;
    words[base + 21] = s.target;
    words[base + 22] = (1 - s.side) as u16;
}

// A legal move made in place.
pub fn apply_move(words: &mut [u16], base: usize, m: Move)
    requires { Movable words.old base m.0 }
    ensures { (p : Position) → Holds p words.old base → move_error p m.0 ≡ 0 → Moved p m.0 base words.old words.new }
{
    let s = plan_move(words, base, m);
    store_move(words, base, m.global(), s);
}

// A move tried in place: made if it is none of the five errors.
pub fn inplace_move(words: &mut [u16], base: usize, m: Move) -> Result<(), MoveError>
    requires { Held words.old base }
    ensures { (p : Position) → Holds p words.old base → Tried p m.0 base words.old words.new (result_number result) }
{
    check_move(words, base, m)?;
    apply_move(words, base, m);
    Ok(())
}

// A position by value.
#[derive(Clone, Copy)]
pub struct Game {
    pub words: [u16; 23],
}

impl Game {
    // The position after a move, or the first of the five errors.
    pub fn make_move(mut self, m: Move) -> Result<Game, MoveError>
        requires { Held self.words 0 }
        ensures number { (p : Position) → Holds p self.words 0 → result_number result ≡ move_error p m.0 }
        ensures made { (p : Position) → Holds p self.words 0 → IfOk result (λ g. Moved p m.0 0 self.words g.words) }
    {
        inplace_move(&mut self.words, 0, m)?;
        Ok(self)
    }
}
