// What the desk says in fixed words, row by row (docs/PROTOCOL.md, "From words"). A row ends with a line feed.

// The sentence of each number, from 0 on.
// One string and no array of slices, here and below: `Tables` and `row` of text speak of its parts.
pub(crate) const SENTENCES: [u8; 980] = *b"accepted\n\
    the switch is over 15 or equal to 12\n\
    a reply buffer is under 120 bytes\n\
    an input word is over FFFFFF\n\
    under 2 or over 9 characters\n\
    the first character is not P, Q, q or W\n\
    the second character is not 0 or 4\n\
    a digit or the identification is not 0-9, A-F or a-f\n\
    no code, or one that the letter has not\n\
    too few or too many digits for the code\n\
    a value is out of its range\n\
    a move runs\n\
    emergency is held\n\
    the sensor is active\n\
    an axis is longer than the master\n\
    the master's distance is 0\n\
    an axis is blocked\n\
    a final position is out of range\n\
    a line buffer is under 10 bytes\n\
    no line has this value\n\
    this is no reply block\n\
    a figure is not exact or out of range\n\
    no space for the whole entry\n\
    the journal ends within an entry\n\
    a number of the entry is out of its range or longer than it need be\n\
    more than 1,000,000 ticks\n\
    there is nothing to carry on\n\
    no MD5230D command, or not in its form\n\
    an MD5230D command that this bench lacks\n\
    a speed of 0 or over 250,000 pps, or a distance over 524,287\n";

// What a status says: of bits 0 and 1 together, then of each bit from 2 on.
pub(crate) const STATES: [u8; 126] = *b"at rest\n\
    dwell\n\
    moving\n\
    wrong master\n\
    stopped by order, limit or watch\n\
    an axis is blocked\n\
    emergency is held\n\
    stopped by the sensor\n";

// The words that begin a form.
pub(crate) const KEYWORDS: [u8; 156] = *b"start\n\
    travel\n\
    position\n\
    dwell\n\
    watch\n\
    polarity\n\
    low\n\
    high\n\
    outputs\n\
    speed\n\
    slope\n\
    distance\n\
    stop\n\
    status\n\
    everything\n\
    inputs\n\
    clear\n\
    reset\n\
    carry\n\
    opening\n\
    master\n\
    ticks\n\
    trial\n";

// The form of each, and behind them that of no word: all words.
pub(crate) const FORMS: [u8; 484] = *b"start 0, start 0 after dwell\n\
    travel 2\n\
    position 1\n\
    dwell 20\n\
    watch 3\n\
    polarity 003\n\
    low 00010\n\
    high 01000\n\
    outputs ABCDEF\n\
    speed 2500.25\n\
    slope 1250\n\
    distance 2 -5000\n\
    stop\n\
    status\n\
    everything\n\
    inputs\n\
    clear\n\
    reset\n\
    carry on\n\
    opening\n\
    master 5 2 3 0 0\n\
    ticks 1000, ticks 1000 000010\n\
    trial 0, trial 0 6000, trial 0 6000 002000\n\
    start, travel, position, dwell, watch, polarity, low, high, outputs, speed, slope, distance, stop, \
    status, everything, inputs, clear, reset, carry, opening, master, ticks, trial\n";
