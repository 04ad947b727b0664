// The text that `--help` prints.

pub const HELP: &str =
    "map_panel: a board of stays at berths and a board of sailings, each in order of its keys

Reads commands from standard input, one a line, and tells what became of each.
At the end of the input it prints both boards in order. A line that is empty
or begins with # is passed over.

BOARD is stay or sailing. Then
  KEY   is BERTH FROM            for stays,  CODE            for sailings;
  ITEM  is BERTH FROM TO VESSEL  for stays,  CODE BERTH DUE  for sailings.
A CODE has at most eight letters; the others are numbers.

Items:
  add BOARD ITEM         adds an item whose key does not stand
  overwrite BOARD ITEM   puts an item in the place of the one with its key, or adds it
  drop BOARD KEY         drops the item with a key
  pop BOARD first        drops the item with the least key
  pop BOARD last         drops the item with the greatest key
  keep BOARD NUMBER      keeps so many items, from the first on, and drops the rest
  ended MINUTE           drops the stays that end at a minute or before it
  clear BOARD            drops all items

Looking:
  get BOARD KEY          the item with a key
  first BOARD            the item with the least key
  last BOARD             the item with the greatest key
  len BOARD              how many items there are
  list BOARD             all items in order, each with its place
  check BOARD            whether a slot in use is vacant

The hand of a board holds an item or an entry until it is used or another is taken:
  take BOARD KEY         takes the item with a key into the hand, a copy of it
  change BOARD ITEM      changes the item in the hand
  put BOARD              puts the item in the hand back on the board, as changed
  entry BOARD KEY        looks for a key, and holds the entry found, vacant or occupied
  enter BOARD ITEM       takes the entry's item into the hand; one for a vacant entry is added
  insert BOARD ITEM      adds the item by a vacant entry, or replaces that of an occupied one
  remove BOARD           takes out the item of an occupied entry

Memory:
  shrink BOARD           moves the items together, and tells the new number of each slot
  shrink BOARD PLACES    the same with a scratch of so many places
  remap BOARD SLOT       the number that the last shrinking gave a slot
  save BOARD             remembers how many slots are in use, the items, and the free head
  adopt BOARD            starts the board anew with the numbers that were saved
  adopt BOARD USED LEN HEAD COUNT
                         the same with these numbers; HEAD may be none, COUNT is of table entries

  map_panel < FILE       reads a file
  map_panel --help       prints this";
