// The text of --help.

/// How to call it, what a sheet and its report have, and where the rules are.
pub(crate) const HELP: &str = "\
usage: daysheet <SHEET     runs the day sheet on standard input, and prints its report
       daysheet --help     prints this

A sheet has one call in each line: a verb, and its fields, with commas between. It has at most 65,536 bytes, and a line
120. Numbers have up to 16 digits; money is in whole kopecks, goods in whole kilograms.

  before the first other line
    INS,number,kind,lot weight,funding days,delivery days,rate
                                            an instrument; the kind is W, in a warehouse, or S, shipped by the seller
  in either half of the day
    DEP,member,register,amount              money is brought to register P, position, or C, clearing
    GIN,member,instrument,kilograms         goods are brought
  while there is trading
    WDR,member,register,amount              money is taken
    SHF,member,source,amount                money goes from register P or C, the source, to the other
    GOT,member,instrument,kilograms         goods are taken
    ORD,number,member,side,instrument,price,lots,last day
                                            an order; the side is B, buy, or S, sell; the last day may be left empty
    CXL,order                               an order is taken back
    TRD,contract,buy order,sell order,price,lots
                                            a trade of two orders, which makes a contract
    RTE,instrument,rate                     an instrument has another rate
    EOT                                     ends the trading: the session begins
  while there is a session
    FND,contract                            the buyer's money is set aside
    DLV,contract,kilograms                  the seller has delivered
    DFT,contract                            one side has failed
    EOD                                     ends the session: the next day's trading begins

The report has a line for each line of the sheet:

    line,A,first,second                     accepted, with the call's two answers
    line,R,layer,number,place               refused by the sheet S, the book B, or the keeper of money M or of goods G;
                                            the place is that of the field, or the keeper's register, or 0

and then, once the book is open, one for each member who has money, or a free position limit other than 0:

    M,member,position,clearing,free position,free clearing

The rules, with the answers of every call and the numbers of all refusals, are in docs/RULES.md.
";
